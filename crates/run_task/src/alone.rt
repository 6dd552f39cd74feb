//! What is read, for one root by itself.

ghost use Rattle.std.specs.Prelude.{◌≡◌, ◌<◌, IfOk, Some, length, slice_get};
ghost use Rattle.problem.specs.Problems.{each_alone};
ghost use Rattle.run_input.specs.Inputs.{IsPosed};

use possible_closure::{ClosureFault, alone_laws, closure};
use run_input::Input;
use std::alloc::{AllocError, Global};

/// The problem that has one of the roots as its only one, with the names that its nodes may have.
/// These are no more than those of all roots together, so that none is refused.
#[tactic(auto, using(crate::proofs::OneRoot::not_too_many))]
pub fn alone_input(alloc: Global, input: &Input, place: usize) -> Result<Input, AllocError>
    requires posed { IsPosed input.now }
    requires within { place < length input.now.problem.roots }
    ensures one { IfOk result (λ one. slice_get (each_alone input.now.problem) place
        ≡ Some one.problem) }
    ensures posed { IfOk result IsPosed }
{
    alone_laws();
    let problem = input.problem.alone(alloc, place)?;
    match closure(alloc, &problem) {
        Ok(closure) => Ok(Input { problem, closure }),
        Err(ClosureFault::TooManyPackages) => unreachable!(),
        Err(ClosureFault::OutOfMemory) => Err(AllocError),
    }
}
