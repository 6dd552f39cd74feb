// What a part of a spec asks of one node, and what a node provides.
ghost use Rattle.std.specs.Prelude.{◌≡◌};
ghost use Rattle.std.specs.List.{list_any, list_all};
ghost use Rattle.std.specs.Option.{option_copied};
ghost use Rattle.condition_rules.specs.Meets.{meets_rest, meets, lists_overlap, row_provides, provides};

use crate::World;
use crate::part::{
    meets_compiler, meets_name, meets_os, meets_platform, meets_targets, meets_variants,
    meets_versions,
};
use virtuals::{Node, Part, ProvideRow, Spec, VersionSet};

/// Whether the constraints of a part other than name and version hold at a node.
#[tactic(auto, unfolding(crate::specs::Meets::meets_rest))]
pub fn meets_rest(world: &World, part: &Part, node: &Node) -> bool
    ensures { result ≡ meets_rest world.now part.now node.now }
{
    meets_variants(part, node)
        && meets_compiler(part, node)
        && meets_platform(world, part)
        && meets_os(part, node)
        && meets_targets(world, part, node)
}

/// Whether a part holds at a node.
#[tactic(auto, unfolding(crate::specs::Meets::meets))]
pub fn meets(world: &World, part: &Part, node: &Node) -> bool
    ensures { result ≡ meets world.now part.now node.now }
{
    meets_name(part, node) && meets_versions(part, node) && meets_rest(world, part, node)
}

fn lists_overlap(versions: &Option<VersionSet>, wanted: Option<&VersionSet>) -> bool
    ensures { result ≡ lists_overlap versions.now (option_copied wanted.entry) }
{
    match (versions, wanted) {
        (Some(versions), Some(wanted)) => versions.overlaps(wanted),
        _ => true,
    }
}

fn all_meet(world: &World, specs: &[Spec], node: &Node) -> bool
    ensures { result ≡ list_all (λ spec. meets world.now spec.top node.now) specs.now }
{
    specs.iter().all(|spec| meets(world, &spec.top, node))
}

/// Whether a row of `provides` says that the node provides a virtual for a list of versions;
/// without one, for any.
pub fn row_provides(
    world: &World,
    node: &Node,
    name: &str,
    wanted: Option<&VersionSet>,
    row: &ProvideRow,
) -> bool
    ensures { result ≡ row_provides world.now node.now name.now
        (option_copied wanted.entry) row.now }
{
    row.name.as_str() == name
        && all_meet(world, row.when.specs.as_slice(), node)
        && lists_overlap(&row.versions, wanted)
}

fn some_provides(
    world: &World,
    node: &Node,
    name: &str,
    wanted: Option<&VersionSet>,
    rows: &[ProvideRow],
) -> bool
    ensures { result ≡ list_any (row_provides world.now node.now name.now
        (option_copied wanted.entry)) rows.now }
{
    rows.iter()
        .any(|row| row_provides(world, node, name, wanted, row))
}

/// Whether a node provides a virtual for a list of versions; without one, for any.
#[tactic(auto, unfolding(crate::specs::Meets::provides))]
pub fn provides(world: &World, node: &Node, name: &str, wanted: Option<&VersionSet>) -> bool
    ensures { result ≡ provides world.now node.now name.now (option_copied wanted.entry) }
{
    let rows = world.provided(node.name.as_str(), name);
    some_provides(world, node, name, wanted, rows)
}
