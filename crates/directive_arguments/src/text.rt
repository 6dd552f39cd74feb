//! The texts in arguments: specs, versions, names and values.

ghost use Rattle.std.specs.Prelude.{◌≡◌, true, false};
ghost use Rattle.std.specs.List.{list_all};
ghost use Rattle.spec_grammar.specs.Signs.{is_value_byte, is_value};
ghost use Rattle.spec_grammar.specs.declared.mode.Mode.TheVariants.{Dependency, Provision};
ghost use Rattle.directive_arguments.specs.Results.{Is};
ghost use Rattle.directive_arguments.specs.Texts.{condition, part_of, version_of};

use crate::ArgumentFault;
use crate::fault::text_fault;
use plain_data::List;
use spec_grammar::{
    Part, Spec, SpecFault, is_name_byte, read_condition_bytes, read_dependency_bytes,
    read_local_condition_bytes, read_provision_bytes,
};
use std::alloc::Global;
use version_order::{Version, VersionFault};

fn any_condition(alloc: Global, place: u64, text: &[u8]) -> Result<Spec, ArgumentFault>
    ensures { Is result (condition false place text.now) }
{
    match read_condition_bytes(alloc, text) {
        Ok(spec) => Ok(spec),
        Err(fault) => Err(text_fault(place, fault)),
    }
}

/// A condition that has no `^`, as the spec that it is.
fn local_condition(alloc: Global, place: u64, text: &[u8]) -> Result<Spec, ArgumentFault>
    ensures { Is result (condition true place text.now) }
{
    match read_local_condition_bytes(alloc, text) {
        Ok(top) => Ok(Spec {
            top,
            below: List::new(alloc),
        }),
        Err(fault) => Err(text_fault(place, fault)),
    }
}

/// A condition, whose first string is at a place; a local one has no `^`.
///
/// # Errors
///
/// `Spec` at the place, with the fault of the text.
pub fn condition(alloc: Global, local: bool, place: u64, text: &[u8]) -> Result<Spec, ArgumentFault>
    ensures { Is result (condition local place text.now) }
{
    if local {
        local_condition(alloc, place, text)
    } else {
        any_condition(alloc, place, text)
    }
}

/// One spec without `^`.
pub(crate) fn dependency(alloc: Global, place: u64, text: &[u8]) -> Result<Part, ArgumentFault>
    ensures { Is result (part_of Dependency place text.now) }
{
    match read_dependency_bytes(alloc, text) {
        Ok(part) => Ok(part),
        Err(fault) => Err(text_fault(place, fault)),
    }
}

/// A name with its versions.
pub(crate) fn provision(alloc: Global, place: u64, text: &[u8]) -> Result<Part, ArgumentFault>
    ensures { Is result (part_of Provision place text.now) }
{
    match read_provision_bytes(alloc, text) {
        Ok(part) => Ok(part),
        Err(fault) => Err(text_fault(place, fault)),
    }
}

/// A version.
pub(crate) fn version(alloc: Global, place: u64, text: &[u8]) -> Result<Version, ArgumentFault>
    ensures { Is result (version_of place text.now) }
{
    match Version::from_bytes(alloc, text) {
        Ok(version) => Ok(version),
        Err(VersionFault::OutOfMemory) => Err(ArgumentFault::OutOfMemory),
        Err(_) => Err(ArgumentFault::Spec(place, SpecFault::BadVersion(0))),
    }
}

fn is_value_byte(b: u8) -> bool
    ensures { result ≡ is_value_byte b }
{
    is_name_byte(b) || b == b'+' || b == b'.' || b == b':' || b == b'/'
}

fn are_value_bytes(text: &[u8]) -> bool
    ensures { result ≡ list_all is_value_byte text.now }
{
    text.iter().all(|b| is_value_byte(*b))
}

/// Whether a text is a value: letters, digits, `_`, `-`, `+`, `.`, `:` and `/`, one at least.
pub(crate) fn is_value(text: &[u8]) -> bool
    ensures { result ≡ is_value text.now }
{
    match text {
        [] => false,
        [_, ..] => are_value_bytes(text),
    }
}
