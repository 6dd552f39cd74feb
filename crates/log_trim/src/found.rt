//! What a search found, with a shorter log.
ghost use Rattle.std.specs.Prelude.{◌≡◌, IfOk};
ghost use Rattle.optimum_search.specs.Finding.{IsFound};
ghost use Rattle.log_trim.specs.Found.{trimmed_found};

use crate::pass::trim;
use clause_store::{ClauseList, Lit};
use optimum_search::Found;
use std::alloc::{AllocError, Global};

/// What a search found of clauses, bits and a budget, with a shorter log (`trim`).
pub fn trim_found(
    alloc: Global,
    _clauses: &ClauseList,
    _bits: &[Lit],
    _budget: u64,
    found: Found,
) -> Result<Found, AllocError>
    requires { IsFound _clauses.now _bits.now _budget found }
    ensures value { IfOk result (λ short. short ≡ trimmed_found found) }
    ensures found { IfOk result (IsFound _clauses.now _bits.now _budget) }
{
    match found {
        Found::Optimal { model, log } => {
            let log = trim(alloc, log)?;
            Ok(Found::Optimal { model, log })
        }
        Found::Refuted { log } => {
            let log = trim(alloc, log)?;
            Ok(Found::Refuted { log })
        }
        Found::Spent { log } => Ok(Found::Spent { log }),
    }
}
