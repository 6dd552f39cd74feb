//! The test of what the calls ask of a formula: that its variables are the list's.
ghost use Rattle.std.specs.Prelude.{◌≡◌, ◌↔◌, IsTrue};
ghost use Rattle.clause_formulas.specs.Statements.{SaidBelow, any_statement};

use crate::formula::{Formula, Node};

/// Whether each variable of a formula is below a number.
#[cycle(range)]
pub fn is_below(formula: &Formula, vars: u64) -> bool
    ensures { IsTrue result ↔ SaidBelow vars formula.now }
{
    match &formula.node {
        Node::Atom(lit) => lit.var.0 < vars,
        Node::Any(parts) => are_below(parts.as_slice(), vars),
        Node::NoneOf(parts) => are_below(parts.as_slice(), vars),
    }
}

/// The same for each of a list.
#[cycle(range)]
pub fn are_below(formulas: &[Formula], vars: u64) -> bool
    ensures { IsTrue result ↔ SaidBelow vars (any_statement formulas.now) }
{
    for formula in formulas {
        if !is_below(formula, vars) {
            return false;
        }
    }
    true
}
