//! Which definition of a variant governs.
ghost use Rattle.std.specs.Prelude.{◌≡◌, ◌++◌, IfOk, OnOk};
ghost use Rattle.clause_formulas.specs.Drafts.{statement_of};
ghost use Rattle.cost_terms.specs.Blocks.{any_gated, blocks_of, none_among};
ghost use Rattle.cost_terms.specs.Governing.{formulas_of};
ghost use Rattle.term_builder.specs.VariantTerms.{rows_of, governs};

use crate::definitions::Definition;
use clause_formulas::{Defined, Formula};
use std::alloc::{AllocError, Global};

/// How many sizes blocks have, each half of the one before.
const SIZES: usize = 25;

/// The size of the largest block: there are at most twice as many definitions.
const LARGEST: usize = 134_217_728;

// The conditions of these definitions.
fn push_conditions(
    alloc: Global,
    parts: &mut Vec<Formula>,
    definitions: &[(&str, &Definition)],
) -> Result<(), AllocError>
    ensures { OnOk result (parts.new.items ≡ parts.old.items
        ++ formulas_of (rows_of definitions.now)) }
{
    for one in definitions {
        parts.push(Formula::of(alloc, one.1.condition()))?;
    }
    Ok(())
}

// Some formula of the list, behind a gate.
fn block(alloc: Global, parts: Vec<Formula>) -> Result<Formula, AllocError>
    ensures { IfOk result (λ formula. formula ≡ any_gated parts.items) }
{
    let mut whole = Vec::new(alloc);
    whole.push(Formula::any(parts))?;
    Formula::all(alloc, whole)
}

fn push_all(blocks: &mut Vec<Formula>, parts: Vec<Formula>) -> Result<(), AllocError>
    ensures { OnOk result (blocks.new.items ≡ blocks.old.items ++ parts.items) }
{
    for part in parts {
        blocks.push(part)?;
    }
    Ok(())
}

// Blocks of formulas, each cut off at the end of those that are left, and what is too short for a
// block. It calls itself for each size, so `SIZES` times.
fn push_blocks(
    alloc: Global,
    blocks: &mut Vec<Formula>,
    parts: Vec<Formula>,
    times: usize,
    size: usize,
) -> Result<(), AllocError>
    ensures { OnOk result (blocks.new.items ≡ blocks.old.items
        ++ blocks_of times size parts.items) }
{
    if times == 0 {
        return push_all(blocks, parts);
    }
    if parts.len() < size {
        return push_blocks(alloc, blocks, parts, times - 1, size / 2);
    }
    let mut front = parts;
    let back = front.split_off(front.len() - size)?;
    blocks.push(block(alloc, back)?)?;
    push_blocks(alloc, blocks, front, times - 1, size / 2)
}

// None of the formulas is true. Lists with one end have blocks in common, whose gates are made
// once: so n lists, each without the first of the one before, take some n log n literals.
fn none_among(alloc: Global, parts: Vec<Formula>) -> Result<Formula, AllocError>
    ensures { IfOk result (λ formula. formula ≡ none_among parts.items) }
{
    let mut blocks = Vec::new(alloc);
    push_blocks(alloc, &mut blocks, parts, SIZES, LARGEST)?;
    Ok(Formula::any(blocks).negated())
}

/// The condition holds, and none of the variant's later definitions.
pub(crate) fn governs(
    alloc: Global,
    condition: Defined,
    later: &[(&str, &Definition)],
) -> Result<Formula, AllocError>
    ensures { IfOk result (λ formula. formula ≡ governs (statement_of condition)
        (rows_of later.now)) }
{
    let mut parts = Vec::new(alloc);
    push_conditions(alloc, &mut parts, later)?;
    let none = none_among(alloc, parts)?;
    Formula::both(alloc, Formula::of(alloc, condition), none)
}
