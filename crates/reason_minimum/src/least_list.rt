//! A least list of demands that cannot be met together.
ghost use Rattle.std.specs.Prelude.{ℕ, Bool, IfOk};
ghost use Rattle.clause_store.specs.Clauses.{Meets};
ghost use Rattle.explain_failure.specs.Uses.{stands, IsRising};
ghost use Rattle.reason_minimum.specs.Least.{IsLeast};

use crate::part::all_demands;
use crate::reasons::LeastReasons;
use crate::reduction::Reduction;
use crate::round::{leave_out, refuting};
use clause_store::ClauseList;
use optimum_search::{Found, found_laws, search};
use plain_data::List;
use std::alloc::{AllocError, Global};

/// A model of all clauses, or a least list of demands whose clauses no assignment meets, with a
/// model of all others for each of them.
///
/// It begins with the demands of a first refutation and leaves out some of them in turn; where the
/// rest is refuted, it goes on with the demands of that refutation. Each search may learn as many
/// clauses as the budget says. An error is want of memory.
pub fn least(alloc: Global, clauses: &ClauseList, budget: u64) -> Result<LeastReasons, AllocError>
    ensures { IfOk result (IsLeast clauses.now budget) }
{
    found_laws();
    match search(alloc, clauses, &[], budget)? {
        Found::Optimal { model, log: _ } => Ok(LeastReasons::Satisfiable { model }),
        Found::Refuted { log } => {
            let demands = refuting(alloc, clauses, &log)?;
            reduced(alloc, clauses, demands, budget)
        }
        Found::Spent { log } => {
            let demands = all_demands(alloc, clauses)?;
            Ok(LeastReasons::Spent {
                demands: List::from_vec(demands),
                more: None,
                log,
            })
        }
    }
}

/// What a list of demands is reduced to.
fn reduced(
    alloc: Global,
    clauses: &ClauseList,
    demands: List<u64>,
    budget: u64,
) -> Result<LeastReasons, AllocError>
    requires rising { IsRising demands }
    requires unmet { (v : ℕ → Bool) → Meets (stands demands) v clauses.now.entries → ⊥ }
    ensures { IfOk result (IsLeast clauses.now budget) }
{
    let mut reduction = Reduction::new(alloc, demands);
    'rounds: while reduction.has_candidates() {
        match leave_out(alloc, clauses, &mut reduction, budget)? {
            Some(answer) => return Ok(answer),
            None => {}
        }
    }
    Ok(reduction.into_minimal())
}
