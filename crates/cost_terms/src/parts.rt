//! Terms of the nodes to build, and of the others.
ghost use Rattle.std.specs.Prelude.{◌≡◌, ◌++◌, map, IfOk, OnOk};
ghost use Rattle.std.specs.List.{list_any, list_all};
ghost use Rattle.literal_table.specs.Choices.{any_choice as any_choice_on};
ghost use Rattle.cost_terms.specs.Parts.{is_of, part_said, only_where, in_part};
ghost use Rattle.problem.specs.Nodes.{builds};

use crate::Weighted;
use clause_formulas::Formula;
use clause_store::Lit;
use graph_core::Origin;
use literal_table::any_choice;
use std::alloc::{AllocError, Global};

fn builds(origin: &Origin) -> bool
    ensures { result ≡ builds origin.now }
{
    matches!(*origin, Origin::Built)
}

fn is_of(built: bool, origin: &Origin) -> bool
    ensures { result ≡ is_of built origin.now }
{
    if built {
        builds(origin)
    } else {
        !builds(origin)
    }
}

// The node is to be built, or is not.
fn part_said(alloc: Global, built: bool, origins: &[(Origin, Lit)]) -> Result<Formula, AllocError>
    ensures { IfOk result (λ formula. formula ≡ part_said built origins.now) }
{
    let formula = any_choice(alloc, origins, |origin| builds(origin))?;
    if built {
        Ok(formula)
    } else {
        Ok(formula.negated())
    }
}

fn all_are(built: bool, origins: &[(Origin, Lit)]) -> bool
    ensures { result ≡ list_all (λ c. is_of built c.0) origins.now }
{
    origins.iter().all(|choice| is_of(built, &choice.0))
}

fn some_are(built: bool, origins: &[(Origin, Lit)]) -> bool
    ensures { result ≡ list_any (λ c. is_of built c.0) origins.now }
{
    origins.iter().any(|choice| is_of(built, &choice.0))
}

// Each term where the node is of the part.
fn only_where(
    alloc: Global,
    built: bool,
    origins: &[(Origin, Lit)],
    terms: Vec<Weighted>,
) -> Result<Vec<Weighted>, AllocError>
    ensures { IfOk result (λ there. there.items
        ≡ map (only_where (part_said built origins.now)) terms.items) }
{
    let mut there = Vec::new(alloc);
    for term in terms {
        let part = part_said(alloc, built, origins)?;
        there.push(Weighted {
            weight: term.weight,
            formula: Formula::both(alloc, part, term.formula)?,
        })?;
    }
    Ok(there)
}

/// The terms where the node is to be built, or is not: none where it cannot be so, and as they are
/// where it must be.
#[tactic(auto, unfolding(crate::specs::Parts::in_part))]
pub fn in_part(
    alloc: Global,
    built: bool,
    origins: &[(Origin, Lit)],
    terms: Vec<Weighted>,
) -> Result<Vec<Weighted>, AllocError>
    ensures { IfOk result (λ there. there.items ≡ in_part built origins.now terms.items) }
{
    if all_are(built, origins) {
        Ok(terms)
    } else if some_are(built, origins) {
        only_where(alloc, built, origins, terms)
    } else {
        Ok(Vec::new(alloc))
    }
}
