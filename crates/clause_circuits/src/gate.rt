//! Gates: what a literal means, by clauses.
ghost use Rattle.std.specs.Prelude.{◌≡◌, [], ◌∷◌, ◌++◌, IfOk, OnOk};
ghost use Rattle.clause_circuits.specs.Gates.{Sides};
ghost use Rattle.clause_circuits.specs.Shapes.{both, never};

use clause_store::Lit;
use smallvec::SmallVec;
use std::alloc::{AllocError, Global};
use std::marker::Model;

/// A list of literals. Up to three stand in place; more take one allocation.
#[derive(Drop)]
pub struct Lits {
    items: SmallVec<Lit, 3>,
}

impl Model for Lits {
    ghost use Rattle.std.specs.Prelude.{List};
    ghost use Rattle.clause_store.specs.declared.Lit.{Lit};

    ghost Value = { List Lit };

    ghost view = { λ l. l.items.items };
}

impl Lits {
    /// The literals of a slice.
    pub fn from_slice(alloc: Global, lits: &[Lit]) -> Result<Lits, AllocError>
        ensures { IfOk result (λ l. l ≡ lits.now) }
    {
        Ok(Lits {
            items: SmallVec::from_slice(alloc, lits)?,
        })
    }

    /// The literals of a short vector, which is taken over.
    pub fn from_small(items: SmallVec<Lit, 3>) -> Lits
        ensures { result ≡ items.items }
    {
        Lits { items }
    }

    /// The literals.
    pub fn as_slice(&self) -> &[Lit]
        ensures { result.now ≡ self.now }
    {
        self.items.as_slice()
    }
}

/// A literal's meaning by clauses: it is true where one of `on` fails, and false where one of `off`
/// does. `both` and `never` take no allocation.
#[derive(Drop)]
pub struct Gate {
    pub(crate) shape: Shape,
}

/// The gates that are made often, and those given by their clauses.
#[derive(Drop)]
pub(crate) enum Shape {
    Both(Lit, Lit),
    Never,
    Given(Vec<Lits>, Vec<Lits>),
}

impl Model for Gate {
    ghost use Rattle.clause_circuits.specs.Gates.{Sides};
    ghost use Rattle.clause_circuits.specs.Views.{sides_of};

    ghost Value = { Sides };

    ghost view = { λ g. sides_of g.shape };
}

impl Gate {
    /// True where both literals are.
    pub fn both(a: Lit, b: Lit) -> Gate
        ensures { result ≡ both a b }
    {
        Gate {
            shape: Shape::Both(a, b),
        }
    }

    /// True nowhere.
    pub fn never() -> Gate
        ensures { result ≡ never }
    {
        Gate {
            shape: Shape::Never,
        }
    }

    /// True where a clause of `on` fails, and false where a clause of `off` does. That one side
    /// fails and not the other is the caller's to see to.
    pub fn by_clauses(on: Vec<Lits>, off: Vec<Lits>) -> Gate
        ensures { result ≡ record { on = on.items; off = off.items } }
    {
        Gate {
            shape: Shape::Given(on, off),
        }
    }
}
