//! A formula as plain data.
ghost use Rattle.std.specs.Prelude.{◌≡◌, ◌++◌, map, IfOk, OnOk};
ghost use Rattle.clause_formulas.specs.Statements.{atom, any_statement, all_statements, both_statements, implication_of, one_of, not_both, opposite};
ghost use Rattle.clause_formulas.specs.Drafts.{statement_of, statement_at};

use crate::defined::Defined;
use clause_store::Lit;
use std::alloc::{AllocError, Global};
use std::marker::Model;

/// What is said of an assignment; contracts see it as a `Statement`.
#[cycle(formula)]
#[derive(Drop)]
pub struct Formula {
    pub(crate) node: Node,
}

#[cycle(formula)]
#[derive(Drop)]
pub(crate) enum Node {
    Atom(Lit),
    Any(Vec<Formula>),
    NoneOf(Vec<Formula>),
}

impl Model for Formula {
    ghost use Rattle.clause_formulas.specs.Statements.{Statement, weight};
    ghost use Rattle.clause_formulas.specs.Codes.{statement_code};

    ghost Value = { Statement };

    ghost coded = { statement_code };

    ghost use Rattle.clause_formulas.specs.Nodes.{said};

    ghost view = { λ f. said f.node };

    ghost size = { weight };

    ghost use Rattle.clause_formulas.specs.Sizes.{deep_le_size};

    ghost size_decreases = { λ f h. deep_le_size f.node };
}

impl Formula {
    /// A literal is true.
    pub fn lit(lit: Lit) -> Formula
        ensures { result ≡ atom lit }
    {
        Formula {
            node: Node::Atom(lit),
        }
    }

    /// Some formula of the list is true.
    pub fn any(parts: Vec<Formula>) -> Formula
        ensures { result ≡ any_statement parts.items }
    {
        Formula {
            node: Node::Any(parts),
        }
    }

    /// This one is not true.
    pub fn negated(self) -> Formula
        ensures { result ≡ opposite self }
    {
        match self.node {
            Node::Atom(lit) => Formula::lit(lit.negated()),
            Node::Any(parts) => Formula {
                node: Node::NoneOf(parts),
            },
            Node::NoneOf(parts) => Formula::any(parts),
        }
    }

    /// A value that was defined before.
    pub fn of(alloc: Global, value: Defined) -> Formula
        ensures { result ≡ statement_of value }
    {
        match value {
            Defined::Known(true) => Formula {
                node: Node::NoneOf(Vec::new(alloc)),
            },
            Defined::Known(false) => Formula::any(Vec::new(alloc)),
            Defined::By(lit) => Formula::lit(lit),
        }
    }

    /// A value of a list that was defined before: false beyond its end.
    pub fn value(alloc: Global, values: &[Defined], at: usize) -> Formula
        ensures { result ≡ statement_at values.now at }
    {
        match values.get(at) {
            Some(value) => Formula::of(alloc, *value),
            None => Formula::any(Vec::new(alloc)),
        }
    }

    /// Each formula of the list is true.
    pub fn all(alloc: Global, parts: Vec<Formula>) -> Result<Formula, AllocError>
        ensures { IfOk result (λ formula. formula ≡ all_statements parts.items) }
    {
        let mut negated = Vec::with_capacity(alloc, parts.len())?;
        for part in parts {
            negated.push(part.negated())?;
        }
        Ok(Formula {
            node: Node::NoneOf(negated),
        })
    }

    /// Both formulas are true.
    pub fn both(alloc: Global, first: Formula, second: Formula) -> Result<Formula, AllocError>
        ensures { IfOk result (λ formula. formula ≡ both_statements first second) }
    {
        let mut negated = Vec::with_capacity(alloc, 2)?;
        negated.push(first.negated())?;
        negated.push(second.negated())?;
        Ok(Formula {
            node: Node::NoneOf(negated),
        })
    }

    /// The second formula is true where the first is.
    pub fn implies(alloc: Global, first: Formula, second: Formula) -> Result<Formula, AllocError>
        ensures { IfOk result (λ formula. formula ≡ implication_of first second) }
    {
        let mut parts = Vec::with_capacity(alloc, 2)?;
        parts.push(first.negated())?;
        parts.push(second)?;
        Ok(Formula::any(parts))
    }

    /// Exactly one literal of the list is true.
    pub fn one(alloc: Global, lits: &[Lit]) -> Result<Formula, AllocError>
        ensures { IfOk result (λ formula. formula ≡ one_of lits.now) }
    {
        let mut some = Vec::new(alloc);
        for lit in lits {
            some.push(Formula::lit(*lit))?;
        }
        let mut parts = Vec::new(alloc);
        parts.push(Formula::any(some))?;
        for (i, lit) in lits.iter().enumerate() {
            push_not_both(alloc, &mut parts, *lit, &lits[i + 1..])?;
        }
        Formula::all(alloc, parts)
    }
}

/// Not both a literal and one of the others.
pub(crate) fn push_not_both(
    alloc: Global,
    parts: &mut Vec<Formula>,
    lit: Lit,
    others: &[Lit],
) -> Result<(), AllocError>
    ensures { OnOk result (parts.new.items ≡ parts.old.items
        ++ map (not_both lit) others.now) }
{
    for other in others {
        let mut pair = Vec::with_capacity(alloc, 2)?;
        pair.push(Formula::lit(lit.negated()))?;
        pair.push(Formula::lit(other.negated()))?;
        parts.push(Formula::any(pair))?;
    }
    Ok(())
}
