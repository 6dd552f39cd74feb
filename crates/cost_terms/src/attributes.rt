//! The terms of the weights of attributes.
ghost use Rattle.std.specs.Prelude.{◌≡◌, IfOk};
ghost use Rattle.graph_rules.specs.Weights.{compiler_weight};
ghost use Rattle.cost_terms.specs.Spread.{weighed_choices};
ghost use Rattle.cost_terms.specs.Terms.{deprecated_terms, version_terms, os_terms, target_terms, compiler_terms};

use crate::{Weighted, spread};
use clause_store::Lit;
use cost_vector::{compiler_weight, deprecated_weights, version_weights};
use graph_core::Compiler;
use literal_table::Block;
use place_weights::{os_weights, target_weights};
use problem::Problem;
use std::alloc::{AllocError, Global};

// The weight of each compiler that may be chosen.
fn compiler_weights(
    alloc: Global,
    problem: &Problem,
    choices: &[(Option<Compiler>, Lit)],
) -> Result<Vec<(u64, Lit)>, AllocError>
    ensures { IfOk result (λ weights. weights.items
        ≡ weighed_choices (compiler_weight problem.now) choices.now) }
{
    let mut weights = Vec::new(alloc);
    for choice in choices {
        let weight = compiler_weight(problem, &choice.0);
        weights.push((weight as u64, choice.1))?;
    }
    Ok(weights)
}

/// One where the version is deprecated.
pub fn deprecated_terms(
    alloc: Global,
    problem: &Problem,
    block: &Block,
) -> Result<Vec<Weighted>, AllocError>
    ensures { IfOk result (λ terms. terms.items ≡ deprecated_terms problem.now block.now) }
{
    let weights = deprecated_weights(
        alloc,
        problem,
        block.name.as_str(),
        block.versions.as_slice(),
    )?;
    spread(alloc, weights.as_slice())
}

/// The version's weight.
pub fn version_terms(
    alloc: Global,
    problem: &Problem,
    block: &Block,
) -> Result<Vec<Weighted>, AllocError>
    ensures { IfOk result (λ terms. terms.items ≡ version_terms problem.now block.now) }
{
    let weights = version_weights(
        alloc,
        problem,
        block.name.as_str(),
        block.versions.as_slice(),
    )?;
    spread(alloc, weights.as_slice())
}

/// The OS's weight.
pub fn os_terms(
    alloc: Global,
    problem: &Problem,
    block: &Block,
) -> Result<Vec<Weighted>, AllocError>
    ensures { IfOk result (λ terms. terms.items ≡ os_terms problem.now block.now) }
{
    let weights = os_weights(alloc, problem, block.os.as_slice())?;
    spread(alloc, weights.as_slice())
}

/// The target's weight.
pub fn target_terms(
    alloc: Global,
    problem: &Problem,
    block: &Block,
) -> Result<Vec<Weighted>, AllocError>
    ensures { IfOk result (λ terms. terms.items ≡ target_terms problem.now block.now) }
{
    let weights = target_weights(alloc, problem, block.targets.as_slice())?;
    spread(alloc, weights.as_slice())
}

/// The compiler's weight.
pub fn compiler_terms(
    alloc: Global,
    problem: &Problem,
    block: &Block,
) -> Result<Vec<Weighted>, AllocError>
    ensures { IfOk result (λ terms. terms.items ≡ compiler_terms problem.now block.now) }
{
    let weights = compiler_weights(alloc, problem, block.compilers.as_slice())?;
    spread(alloc, weights.as_slice())
}
