// The constraints of a part, one by one, at one node.
ghost use Rattle.std.specs.Prelude.{◌≡◌, find};
ghost use Rattle.std.specs.List.{list_any};
ghost use Rattle.std.specs.Option.{option_copied};
ghost use Rattle.std.specs.Str.{bytes_eq};
ghost use Rattle.condition_rules.specs.Words.{includes, is_some_and};
ghost use Rattle.condition_rules.specs.Meets.{has_values, is_compiler, is_target, meets_variants, meets_compiler, meets_platform, meets_os, meets_targets, meets_name, meets_versions};

use crate::World;
use plain_data::Word;
use virtuals::{Compiler, Node, Part, TargetItem, ValueSet, VersionSet};

fn includes(values: &ValueSet, wanted: &ValueSet) -> bool
    ensures { result ≡ includes values.now wanted.now }
{
    values.contains_all(wanted)
}

fn entry_of<'a>(variants: &'a [(Word, ValueSet)], name: &str) -> Option<&'a (Word, ValueSet)>
    ensures { option_copied result ≡ find (λ v. bytes_eq v.0 name.now) variants.now }
{
    variants.iter().find(|v| v.0.as_str() == name)
}

fn has_values(variants: &[(Word, ValueSet)], wanted: &(Word, ValueSet)) -> bool
    ensures { result ≡ has_values variants.now wanted.now }
{
    match entry_of(variants, wanted.0.as_str()) {
        Some(v) => includes(&v.1, &wanted.1),
        None => false,
    }
}

pub(crate) fn meets_variants(part: &Part, node: &Node) -> bool
    ensures { result ≡ meets_variants part.now node.now }
{
    let variants = node.variants.as_slice();
    part.variants
        .as_slice()
        .iter()
        .all(|wanted| has_values(variants, wanted))
}

/// The compiler has the name, and a version of the set where there is one.
pub fn is_compiler(wanted: &(Word, Option<VersionSet>), compiler: &Compiler) -> bool
    ensures { result ≡ is_compiler wanted.now compiler.now }
{
    wanted.0.as_str() == compiler.name.as_str()
        && match &wanted.1 {
            Some(set) => set.contains(&compiler.version),
            None => true,
        }
}

pub(crate) fn meets_compiler(part: &Part, node: &Node) -> bool
    ensures { result ≡ meets_compiler part.now node.now }
{
    match (&part.compiler, &node.compiler) {
        (Some(wanted), Some(compiler)) => is_compiler(wanted, compiler),
        (Some(_), None) => false,
        (None, _) => true,
    }
}

/// The platform is that of the part, where it has one.
pub fn meets_platform(world: &World, part: &Part) -> bool
    ensures { result ≡ meets_platform world.now part.now }
{
    match &part.platform {
        Some(platform) => world.platform() == platform.as_str(),
        None => true,
    }
}

pub(crate) fn meets_os(part: &Part, node: &Node) -> bool
    ensures { result ≡ meets_os part.now node.now }
{
    match &part.os {
        Some(os) => node.os.as_str() == os.as_str(),
        None => true,
    }
}

fn is_alone(target: &str, item: &TargetItem) -> bool
    ensures { result ≡ is_some_and item.now.low (bytes_eq target.now) }
{
    match &item.low {
        Some(low) => target == low.as_str(),
        None => false,
    }
}

fn text_of(word: &Option<Word>) -> Option<&str>
    ensures { option_copied result ≡ word.now }
{
    match word {
        Some(word) => Some(word.as_str()),
        None => None,
    }
}

/// Whether a target is the one of an item, or lies in its range.
pub fn is_target(world: &World, target: &str, item: &TargetItem) -> bool
    ensures { result ≡ is_target world.now target.now item.now }
{
    if item.range {
        let (low, high) = (text_of(&item.low), text_of(&item.high));
        world.targets().in_range(target, low, high)
    } else {
        is_alone(target, item)
    }
}

fn is_some_target(world: &World, target: &str, items: &[TargetItem]) -> bool
    ensures { result ≡ list_any (is_target world.now target.now) items.now }
{
    items.iter().any(|item| is_target(world, target, item))
}

pub(crate) fn meets_targets(world: &World, part: &Part, node: &Node) -> bool
    ensures { result ≡ meets_targets world.now part.now node.now }
{
    match &part.targets {
        Some(items) => is_some_target(world, node.target.as_str(), items.as_slice()),
        None => true,
    }
}

pub(crate) fn meets_name(part: &Part, node: &Node) -> bool
    ensures { result ≡ meets_name part.now node.now }
{
    match &part.name {
        Some(name) => node.name.as_str() == name.as_str(),
        None => true,
    }
}

pub(crate) fn meets_versions(part: &Part, node: &Node) -> bool
    ensures { result ≡ meets_versions part.now node.now }
{
    match &part.versions {
        Some(set) => set.contains(&node.version),
        None => true,
    }
}
