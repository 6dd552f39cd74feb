//! The roots that the specs of a run ask for.

ghost use Rattle.std.specs.Prelude.{◌≡◌, true, IfOk};
ghost use Rattle.run_answers.specs.Stages.{Is, Then};
ghost use Rattle.run_answers.specs.Stops.{Gives, EndsInReadFault};
ghost use Rattle.run_input.specs.Roots.{SpecsOf, RootsOf, are_named, roots_of};

use crate::{ReadRoots, ReadStop, Refusal};
use plain_data::List;
use spec_grammar::{Spec, SpecFault, read_specs, writing_laws};
use std::alloc::Global;

/// The most bytes that the text of the specs has: 64 KiB.
pub(crate) const SPECS_LIMIT: usize = 1 << 16;

/// The most specs.
const ROOTS_LIMIT: usize = 64;

/// The specs that a text spells.
#[tactic(auto, using(crate::proofs::Named::all_named))]
fn specs_of(alloc: Global, text: &str) -> Result<List<Spec>, ReadStop>
    ensures read { Gives result (SpecsOf text.now) }
    ensures named { IfOk result (λ specs. are_named specs ≡ true) }
    ensures no_fault { EndsInReadFault result → ⊥ }
{
    writing_laws();
    match read_specs(alloc, text) {
        Ok(specs) => Ok(specs),
        Err(SpecFault::OutOfMemory) => Err(ReadStop::NoMemory),
        Err(fault) => Err(ReadStop::Refused(Refusal::BadSpecs(fault))),
    }
}

/// Refuses more than 64 specs.
#[tactic(auto, unfolding(crate::specs::Roots::roots_of))]
fn checked(specs: List<Spec>) -> Result<List<Spec>, ReadStop>
    ensures read { Gives result (Is (roots_of specs)) }
    ensures same { IfOk result (λ roots. roots ≡ specs) }
    ensures no_fault { EndsInReadFault result → ⊥ }
{
    if specs.as_slice().len() > ROOTS_LIMIT {
        return Err(ReadStop::Refused(Refusal::TooManyRoots));
    }
    Ok(specs)
}

/// The roots that a text asks for, which is not too long.
fn roots_in(alloc: Global, text: &str) -> Result<List<Spec>, ReadStop>
    ensures read { Gives result (Then (SpecsOf text.now) (λ specs. Is (roots_of specs))) }
    ensures named { IfOk result (λ roots. are_named roots ≡ true) }
    ensures no_fault { EndsInReadFault result → ⊥ }
{
    let specs = specs_of(alloc, text)?;
    checked(specs)
}

/// The roots that the text of the specs asks for.
pub fn read_roots(alloc: Global, text: &str) -> Result<ReadRoots, ReadStop>
    ensures read { Gives result (RootsOf text.now) }
    ensures no_fault { EndsInReadFault result → ⊥ }
{
    if text.len() > SPECS_LIMIT {
        return Err(ReadStop::Refused(Refusal::SpecsTooLarge));
    }
    let roots = roots_in(alloc, text)?;
    Ok(ReadRoots::new(roots))
}
