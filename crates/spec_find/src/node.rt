// What parts of a spec ask of the node that stands for a record.
ghost use Rattle.std.specs.Prelude.{◌≡◌, IfOk};
ghost use Rattle.condition_rules.specs.Meets.{meets, meets_name};
ghost use Rattle.condition_rules.specs.Holds.{suits};
ghost use Rattle.reuse_db.specs.Installed.{installed_node};

use condition_rules::{Part, World, meets, suits};
use reuse_db::{Record, installed_node};
use std::alloc::{AllocError, Global};

/// Whether a part holds at a record's node, which is only made where the names agree.
pub(crate) fn record_meets(
    alloc: Global,
    world: &World,
    part: &Part,
    entry: &Record,
) -> Result<bool, AllocError>
    ensures { IfOk result (λ is. is ≡ meets world.now part.now (installed_node entry.now)) }
{
    if !has_name(part, entry) {
        return Ok(false);
    }
    let node = installed_node(alloc, entry)?;
    Ok(meets(world, part, &node))
}

/// Whether a record's node suits a part that has this name; it is only made where the names agree, or the name is a
/// virtual.
pub(crate) fn record_suits(
    alloc: Global,
    world: &World,
    part: &Part,
    name: &str,
    entry: &Record,
) -> Result<bool, AllocError>
    ensures { IfOk result (λ is. is ≡ suits world.now part.now name.now
        (installed_node entry.now)) }
{
    if !world.is_virtual(name) && !has_name(part, entry) {
        return Ok(false);
    }
    let node = installed_node(alloc, entry)?;
    Ok(suits(world, part, name, &node))
}

#[tactic(auto, unfolding(reuse_db::specs::Installed::installed_node))]
fn has_name(part: &Part, entry: &Record) -> bool
    ensures { result ≡ meets_name part.now (installed_node entry.now) }
{
    match &part.name {
        Some(name) => entry.name.as_str() == name.as_str(),
        None => true,
    }
}
