//! The names of nodes by their hashes.
ghost use Rattle.std.specs.Prelude.{◌≡◌, ℕ, List, Some, IfOk, OnOk};
ghost use Rattle.std.specs.Option.{option_copied};
ghost use Rattle.std.specs.BTreeMap.{get_by_text};
ghost use Rattle.std.specs.Map.{update};
ghost use Rattle.std.specs.Str.{bytes_eq};
ghost use Rattle.lockfile.specs.Named.{AreNames};

use crate::node::LockedNode;
use plain_data::{Duplicate, Word};
use std::alloc::{AllocError, Global};
use std::collections::BTreeMap;

/// For each hash the name of the first node that has it.
pub(crate) fn names_by_hash(
    alloc: Global,
    nodes: &[LockedNode],
) -> Result<BTreeMap<String, Word>, AllocError>
    ensures { IfOk result (AreNames nodes.now) }
{
    let mut names = BTreeMap::new(alloc);
    for done in 0..nodes.len() {
        // From the last to the first, so that the first stays.
        let place = nodes.len() - 1 - done;
        let node = &nodes[place];
        add_name(alloc, &mut names, node)?;
    }
    Ok(names)
}

fn add_name(
    alloc: Global,
    names: &mut BTreeMap<String, Word>,
    node: &LockedNode,
) -> Result<(), AllocError>
    ensures { OnOk result ((q : List ℕ)
        → get_by_text names.new q ≡ update bytes_eq (get_by_text names.old) node.now.described.hash
        (Some node.now.described.name) q) }
{
    let hash = String::from_str(alloc, node.described.hash.as_str())?;
    let name = node.described.name.duplicate(alloc)?;
    names.insert(hash, name)?;
    Ok(())
}

/// The name of the first node with a hash.
pub(crate) fn name_in<'m>(names: &'m BTreeMap<String, Word>, hash: &str) -> Option<&'m Word>
    ensures { option_copied result ≡ get_by_text names.now hash.now }
{
    names.get(hash)
}
