//! Clauses over numbered variables, and a growing list of them with labels.
//!
//! It promises: a `Clause` is seen as the list of its literals in rising order of variables, each
//! once, so that clauses of the same literals are equal; a `ClauseList` is seen as its clauses with
//! their labels, numbered from 1, over the variables that it made. It stands on `smallvec`, which
//! keeps a short clause in place; a list keeps its clauses one after the other. It must not know
//! what a clause is for, nor how models are found.
#![tactic(auto)]

mod clause;
mod codes;
mod cuts;
mod demands;
mod list;
mod theorems;

pub use clause::Clause;
pub use cuts::part;
pub use list::{ClauseList, Entry};
pub use theorems::{clause_laws, list_laws};

/// A variable, by its place in the list that made it; places count from 0.
#[derive(Debug, Clone, Copy, Default, PartialEq, Eq)]
pub struct Var(pub u64);

/// A variable, or its negation.
#[derive(Debug, Clone, Copy, Default, PartialEq, Eq)]
pub struct Lit {
    pub var: Var,
    /// Whether the literal is true where the variable is.
    pub positive: bool,
}

/// What a clause is there for.
#[derive(Debug, Clone, Copy, PartialEq, Eq)]
pub enum Label {
    /// It holds in every model that is asked for.
    Structure,
    /// It is asked for with the demand of this number alone.
    Demand(u64),
}

impl Lit {
    ghost use Rattle.std.specs.Prelude.{◌≡◌};
    ghost use Rattle.clause_store.specs.Lits.{negation};

    /// The literal that is true where this one is false.
    pub fn negated(self) -> Lit
        ensures { result ≡ negation self }
    {
        Lit {
            var: self.var,
            positive: !self.positive,
        }
    }
}
