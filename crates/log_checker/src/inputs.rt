//! The clauses that a checker begins with.
ghost use Rattle.std.specs.Prelude.{◌≡◌, [], ◌∷◌, ◌++◌, IfOk, OnOk};
ghost use Rattle.clause_store.specs.Lits.{IsClause};
ghost use Rattle.clause_store.specs.Clauses.{clauses_of};
ghost use Rattle.proof_log.specs.Known.{AllClauses};
ghost use Rattle.log_checker.specs.Known.{as_known, rival};

use crate::store::Store;
use clause_store::{Clause, ClauseList};
use std::alloc::{AllocError, Global};

/// One clause of the input.
fn take_input(store: &mut Store, clause: Clause) -> Result<(), AllocError>
    ensures ok { OnOk result (store.new ≡ store.old ++ rival clause ∷ []) }
    ensures in_order { IsClause clause }
{
    store.add(clause.lits(), false)
}

/// The clauses of a list, as the first known ones.
pub(crate) fn copy_all(alloc: Global, clauses: &ClauseList) -> Result<Store, AllocError>
    ensures copied { IfOk result (λ store. store ≡ as_known (clauses_of clauses.now.entries)) }
    ensures in_order { OnOk result (AllClauses (clauses_of clauses.now.entries)) }
{
    let count = clauses.len();
    let mut store = Store::new(alloc)?;
    for place in 0..count {
        match clauses.get(alloc, place + 1)? {
            Some(clause) => take_input(&mut store, clause)?,
            None => {}
        }
    }
    Ok(store)
}
