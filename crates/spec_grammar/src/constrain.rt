//! Constraints of a part.

ghost use Rattle.std.specs.Prelude.{◌≡◌, IfOk, [], ◌∷◌};
ghost use Rattle.spec_grammar.specs.Keys.{key_of};
ghost use Rattle.spec_grammar.specs.Meaning.{Becomes, set_variant, set_platform, set_os, set_targets, set_arch, set_key, first_value, add};

use crate::item::SpecItem;
use crate::key::{KeyKind, key_of};
use crate::open_part::OpenPart;
use crate::values_set::{cut_dash, mark_set, target_of, targets_of, truth, value_set};
use plain_data::{List, Word};
use std::alloc::{AllocError, Global};
use variant_values::ValueSet;
use version_order::VersionSet;

// Each of these is `false` where the part has the same already.

fn set_variant(part: &mut OpenPart, name: Word, values: ValueSet) -> Result<bool, AllocError>
    ensures { IfOk result (λ done. Becomes (set_variant name values part.old) done part.new) }
{
    if part.has_variant(&name) {
        return Ok(false);
    }
    part.put_variant(name, values)?;
    Ok(true)
}

fn set_platform(alloc: Global, part: &mut OpenPart, text: &str) -> Result<bool, AllocError>
    ensures { IfOk result (λ done. Becomes (set_platform text.now part.old) done part.new) }
{
    if part.platform.is_some() {
        return Ok(false);
    }
    part.platform = Some(truth(alloc, text)?);
    Ok(true)
}

fn set_os(alloc: Global, part: &mut OpenPart, text: &str) -> Result<bool, AllocError>
    ensures { IfOk result (λ done. Becomes (set_os text.now part.old) done part.new) }
{
    if part.os.is_some() {
        return Ok(false);
    }
    part.os = Some(truth(alloc, text)?);
    Ok(true)
}

/// Sets the one target that `arch=` names; `false` where targets are set.
fn set_target(alloc: Global, part: &mut OpenPart, text: &str) -> Result<bool, AllocError>
    ensures { IfOk result (λ done. Becomes (set_targets (text.now ∷ []) part.old) done part.new) }
{
    if part.targets.is_some() {
        return Ok(false);
    }
    let mut targets = List::new(alloc);
    targets.push(target_of(alloc, text)?)?;
    part.targets = Some(targets);
    Ok(true)
}

fn set_targets(alloc: Global, part: &mut OpenPart, values: &[Word]) -> Result<bool, AllocError>
    ensures { IfOk result (λ done. Becomes (set_targets values.now part.old) done part.new) }
{
    if part.targets.is_some() {
        return Ok(false);
    }
    part.targets = Some(targets_of(alloc, values)?);
    Ok(true)
}

/// P-O-T
fn set_arch(alloc: Global, part: &mut OpenPart, text: &str) -> Result<bool, AllocError>
    ensures { IfOk result (λ done. Becomes (set_arch text.now part.old) done part.new) }
{
    let (platform, rest) = cut_dash(text);
    let (os, target) = cut_dash(rest);
    if !set_platform(alloc, part, platform)? {
        return Ok(false);
    }
    if !set_os(alloc, part, os)? {
        return Ok(false);
    }
    set_target(alloc, part, target)
}

fn first_value(values: &[Word]) -> &str
    ensures { result.now ≡ first_value values.now }
{
    match values.first() {
        Some(value) => value.as_str(),
        None => "",
    }
}

/// Sets what a key sets; `false` where that is set, and for flags, which are not read.
fn set_key(
    alloc: Global,
    part: &mut OpenPart,
    name: Word,
    values: &[Word],
) -> Result<bool, AllocError>
    ensures { IfOk result (λ done. Becomes (set_key (key_of name) name values.now part.old)
        done part.new) }
{
    match key_of(name.as_str().as_bytes()) {
        KeyKind::Platform => set_platform(alloc, part, first_value(values)),
        KeyKind::Os => set_os(alloc, part, first_value(values)),
        KeyKind::Arch => set_arch(alloc, part, first_value(values)),
        KeyKind::Target => set_targets(alloc, part, values),
        KeyKind::Flags => Ok(false),
        KeyKind::Variant => set_variant(part, name, value_set(alloc, values)?),
    }
}

fn set_versions(part: &mut OpenPart, versions: VersionSet) -> bool
    ensures { Becomes (add (SpecItem.Versions versions) part.old) result part.new }
{
    if part.versions.is_some() {
        return false;
    }
    part.versions = Some(versions);
    true
}

fn set_compiler(part: &mut OpenPart, name: Word, versions: Option<VersionSet>) -> bool
    ensures { Becomes (add (SpecItem.Compiler name versions) part.old) result part.new }
{
    if part.compiler.is_some() {
        return false;
    }
    part.compiler = Some((name, versions));
    true
}

/// Adds a constraint, and is `false` where it sets the same again.
pub(crate) fn add(alloc: Global, part: &mut OpenPart, item: SpecItem) -> Result<bool, AllocError>
    ensures { IfOk result (λ done. Becomes (add item part.old) done part.new) }
{
    match item {
        SpecItem::Name(_) | SpecItem::Caret => Ok(false),
        SpecItem::Versions(versions) => Ok(set_versions(part, versions)),
        SpecItem::Variant(mark, name) => set_variant(part, name, mark_set(alloc, mark)?),
        SpecItem::Compiler(name, versions) => Ok(set_compiler(part, name, versions)),
        SpecItem::Key(name, values) => set_key(alloc, part, name, values.as_slice()),
    }
}
