//! A model that goes on over more clauses.

use clause_store::{ClauseList, Lit};
use std::alloc::{AllocError, Global};

/// Whether a literal is true in a model.
pub fn is_true(model: &[bool], lit: Lit) -> bool {
    let value = model.get(lit.var.0 as usize).copied().unwrap_or(false);
    if lit.positive { value } else { !value }
}

/// Whether some literal is true.
fn is_met(model: &[bool], lits: &[Lit]) -> bool {
    lits.iter().any(|lit| is_true(model, *lit))
}

/// Makes the last literal true where no other is.
fn give_last(model: &mut Vec<bool>, lits: &[Lit]) {
    if let Some((last, rest)) = lits.split_last() {
        let var = last.var.0 as usize;
        if var < model.len() && !is_met(model.as_slice(), rest) {
            model[var] = last.positive;
        }
    }
}

/// Gives the last variable of each clause of a list from a place on, below another, the value that
/// it needs, in their order. Where clauses define their last variables from earlier ones, the model
/// meets them.
pub fn go_on(
    alloc: Global,
    model: &mut Vec<bool>,
    clauses: &ClauseList,
    from: u64,
    to: u64,
) -> Result<(), AllocError> {
    for place in from..to {
        if let Some(clause) = clauses.get(alloc, place + 1)? {
            give_last(model, clause.lits());
        }
    }
    Ok(())
}
