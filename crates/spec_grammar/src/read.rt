//! The readers of the four kinds of texts.

ghost use Rattle.std.specs.Prelude.{◌≡◌, ◌∷◌, [], Some, false, IfOk, IfErr};
ghost use Rattle.spec_grammar.specs.Right.{may_repeat, may_nest};
ghost use Rattle.spec_grammar.specs.Reading.{Spells};
ghost use Rattle.spec_grammar.specs.Faults.{IsFault};
ghost use Rattle.spec_grammar.specs.declared.part.Spec.{Spec};

use crate::mode::Mode;
use crate::reading::read_text;
use crate::{Part, Spec, SpecFault};
use plain_data::List;
use std::alloc::Global;

/// The specs that a text spells, with white space between them: `hdf5@1.10: +mpi ^mpich zlib`.
///
/// # Errors
///
/// The fault of the first item that is not right. A text of white space alone is `Expected` at its
/// length.
pub fn read_specs(alloc: Global, text: &str) -> Result<List<Spec>, SpecFault>
    ensures found { IfOk result (λ specs. Spells Mode.Specs text.now specs) }
    ensures fault { IfErr result (λ fault. IsFault Mode.Specs text.now fault) }
{
    read_specs_bytes(alloc, text.as_bytes())
}

/// The specs that the bytes of a text spell.
///
/// # Errors
///
/// Those of `read_specs`.
pub fn read_specs_bytes(alloc: Global, text: &[u8]) -> Result<List<Spec>, SpecFault>
    ensures found { IfOk result (λ specs. Spells Mode.Specs text.now specs) }
    ensures fault { IfErr result (λ fault. IsFault Mode.Specs text.now fault) }
{
    read_text(alloc, Mode::Specs, text)
}

/// The condition that a text spells, as of `when=`: one spec, whose package need not be named. A text
/// of white space alone is the condition that always holds.
///
/// # Errors
///
/// The fault of the first item that is not right.
pub fn read_condition(alloc: Global, text: &str) -> Result<Spec, SpecFault>
    ensures found { IfOk result (λ spec. Spells Mode.Condition text.now (spec ∷ [])) }
    ensures fault { IfErr result (λ fault. IsFault Mode.Condition text.now fault) }
{
    read_condition_bytes(alloc, text.as_bytes())
}

/// The condition that the bytes of a text spell.
///
/// # Errors
///
/// Those of `read_condition`.
pub fn read_condition_bytes(alloc: Global, text: &[u8]) -> Result<Spec, SpecFault>
    ensures found { IfOk result (λ spec. Spells Mode.Condition text.now (spec ∷ [])) }
    ensures fault { IfErr result (λ fault. IsFault Mode.Condition text.now fault) }
{
    read_one(alloc, Mode::Condition, text)
}

/// The condition without `^` that the bytes of a text spell, as of the `when=` of `provides`: `@1.10: +mpi`.
///
/// # Errors
///
/// The fault of the first item that is not right; at a `^`, `NestedDependency`.
pub fn read_local_condition_bytes(alloc: Global, text: &[u8]) -> Result<Part, SpecFault>
    ensures found { IfOk result (λ part. Spells Mode.LocalCondition text.now
        (record { top = part; below = [] } ∷ [])) }
    ensures fault { IfErr result (λ fault. IsFault Mode.LocalCondition text.now fault) }
{
    read_part(alloc, Mode::LocalCondition, text)
}

/// The one spec without `^` that a text spells, as of `depends_on`: `zlib@1.2: +pic`.
///
/// # Errors
///
/// The fault of the first item that is not right.
pub fn read_dependency(alloc: Global, text: &str) -> Result<Part, SpecFault>
    ensures found { IfOk result (λ part. Spells Mode.Dependency text.now
        (record { top = part; below = [] } ∷ [])) }
    ensures fault { IfErr result (λ fault. IsFault Mode.Dependency text.now fault) }
{
    read_dependency_bytes(alloc, text.as_bytes())
}

/// The one spec without `^` that the bytes of a text spell.
///
/// # Errors
///
/// Those of `read_dependency`.
pub fn read_dependency_bytes(alloc: Global, text: &[u8]) -> Result<Part, SpecFault>
    ensures found { IfOk result (λ part. Spells Mode.Dependency text.now
        (record { top = part; below = [] } ∷ [])) }
    ensures fault { IfErr result (λ fault. IsFault Mode.Dependency text.now fault) }
{
    read_part(alloc, Mode::Dependency, text)
}

/// The name with its versions that a text spells, as of `provides`: `mpi@3.1`.
///
/// # Errors
///
/// The fault of the first item that is not right.
pub fn read_provision(alloc: Global, text: &str) -> Result<Part, SpecFault>
    ensures found { IfOk result (λ part. Spells Mode.Provision text.now
        (record { top = part; below = [] } ∷ [])) }
    ensures fault { IfErr result (λ fault. IsFault Mode.Provision text.now fault) }
{
    read_provision_bytes(alloc, text.as_bytes())
}

/// The name with its versions that the bytes of a text spell.
///
/// # Errors
///
/// Those of `read_provision`.
pub fn read_provision_bytes(alloc: Global, text: &[u8]) -> Result<Part, SpecFault>
    ensures found { IfOk result (λ part. Spells Mode.Provision text.now
        (record { top = part; below = [] } ∷ [])) }
    ensures fault { IfErr result (λ fault. IsFault Mode.Provision text.now fault) }
{
    read_part(alloc, Mode::Provision, text)
}

/// The only one of some specs.
fn only(specs: List<Spec>) -> Option<Spec>
    ensures { (spec : Spec) → specs ≡ spec ∷ [] → result ≡ Some spec }
{
    specs.into_vec().pop()
}

/// The one spec that a text spells.
fn read_one(alloc: Global, mode: Mode, text: &[u8]) -> Result<Spec, SpecFault>
    requires { may_repeat mode ≡ false }
    ensures found { IfOk result (λ spec. Spells mode text.now (spec ∷ [])) }
    ensures fault { IfErr result (λ fault. IsFault mode text.now fault) }
{
    let specs = read_text(alloc, mode, text)?;
    match only(specs) {
        Some(spec) => Ok(spec),
        None => unreachable!(),
    }
}

/// The one part that a text spells.
fn read_part(alloc: Global, mode: Mode, text: &[u8]) -> Result<Part, SpecFault>
    requires one { may_repeat mode ≡ false }
    requires alone { may_nest mode ≡ false }
    ensures found { IfOk result (λ part. Spells mode text.now (record { top = part; below = [] } ∷ [])) }
    ensures fault { IfErr result (λ fault. IsFault mode text.now fault) }
{
    let spec = read_one(alloc, mode, text)?;
    Ok(spec.top)
}
