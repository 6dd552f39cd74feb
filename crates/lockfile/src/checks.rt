//! What is looked for over a whole file, one kind of fault after another.
ghost use Rattle.std.specs.Prelude.{◌≡◌, [], None, IfOk, IfErr, OnOk, is_none};
ghost use Rattle.lockfile.specs.Children.{named_by};
ghost use Rattle.lockfile.specs.Faults.{IsFileFault, IsHashFault, IsSoundFile, IsTwiceFault, dangling_in_file};
ghost use Rattle.lockfile.specs.Faults.{lost_child, lost_from, lost_root, named_after, twice_named};
ghost use Rattle.lockfile.specs.Faults.{wrongly_hashed};
ghost use Rattle.lockfile.specs.Named.{AreNames};

use crate::LockFault;
use crate::children::children_of;
use crate::file::{File, names_of};
use crate::names::name_in;
use crate::node::LockedNode;
use plain_data::{Duplicate, Word};
use reuse_db::canonical;
use spec_hash::{Hash, hash_text};
use std::alloc::{AllocError, Global};
use std::collections::{BTreeMap, BTreeSet};

/// Looks for the first fault of a file, whose nodes have these names by their hashes.
pub(crate) fn check_file(
    alloc: Global,
    file: &File,
    names: &BTreeMap<String, Word>,
) -> Result<(), LockFault>
    requires { AreNames file.now.nodes names.now }
    ensures sound { OnOk result (IsSoundFile file.now) }
    ensures fault { IfErr result (IsFileFault file.now) }
{
    let nodes = file.nodes.as_slice();
    check_names(alloc, nodes)?;
    check_hashes(alloc, nodes)?;
    match first_dangling(alloc, file, names)? {
        Some((parent, child)) => Err(LockFault::Dangling { parent, child }),
        None => Ok(()),
    }
}

fn check_names(alloc: Global, nodes: &[LockedNode]) -> Result<(), LockFault>
    ensures once { OnOk result (twice_named nodes.now ≡ None) }
    ensures fault { IfErr result (IsTwiceFault nodes.now) }
{
    match twice_in(alloc, names_of(alloc, nodes)?)? {
        Some(name) => Err(LockFault::TwiceNamed(name)),
        None => Ok(()),
    }
}

/// The first name that stood before.
fn twice_in(alloc: Global, names: Vec<Word>) -> Result<Option<Word>, AllocError>
    ensures { IfOk result (λ name. name ≡ named_after [] names.items) }
{
    let mut before = BTreeSet::new(alloc);
    for name in names {
        let kept = name.duplicate(alloc)?;
        if !before.insert(name)? {
            return Ok(Some(kept));
        }
    }
    Ok(None)
}

/// Refuses the first node whose hash is not that of its record.
fn check_hashes(alloc: Global, nodes: &[LockedNode]) -> Result<(), LockFault>
    ensures same { OnOk result (wrongly_hashed nodes.now ≡ None) }
    ensures fault { IfErr result (IsHashFault nodes.now) }
{
    for node in nodes {
        let text = canonical(alloc, &node.described)?;
        let computed = hash_text(text.as_slice());
        let written = node.described.hash;
        if written.as_str() != computed.as_str() {
            return Err(LockFault::HashDiffers { written, computed });
        }
    }
    Ok(())
}

// The first child or root that is no node, behind its parent.
fn first_dangling(
    alloc: Global,
    file: &File,
    names: &BTreeMap<String, Word>,
) -> Result<Option<(Hash, Hash)>, AllocError>
    requires { AreNames file.now.nodes names.now }
    ensures { IfOk result (λ pair. pair ≡ dangling_in_file file.now) }
{
    let nodes = file.nodes.as_slice();
    match lost_from(alloc, nodes, names)? {
        Some(pair) => Ok(Some(pair)),
        None => Ok(lost_root(nodes, file.roots.as_slice(), names)),
    }
}

/// The first node with a child that is none, and that child's hash.
fn lost_from(
    alloc: Global,
    nodes: &[LockedNode],
    names: &BTreeMap<String, Word>,
) -> Result<Option<(Hash, Hash)>, AllocError>
    requires { AreNames nodes.now names.now }
    ensures { IfOk result (λ pair. pair ≡ lost_from nodes.now nodes.now) }
{
    for node in nodes {
        if let Some(child) = lost_child(alloc, nodes, node, names)? {
            return Ok(Some((node.described.hash, child)));
        }
    }
    Ok(None)
}

/// The first child of a node that is no node.
fn lost_child(
    alloc: Global,
    nodes: &[LockedNode],
    node: &LockedNode,
    names: &BTreeMap<String, Word>,
) -> Result<Option<Hash>, AllocError>
    requires { AreNames nodes.now names.now }
    ensures { IfOk result (λ child. child ≡ lost_child nodes.now node.now) }
{
    let children = children_of(alloc, node)?;
    for child in children.as_slice() {
        if is_lost(nodes, &child.hash, names) {
            return Ok(Some(child.hash));
        }
    }
    Ok(None)
}

/// The first root that is no node; its hash stands for both ends.
fn lost_root(
    nodes: &[LockedNode],
    roots: &[(Word, Hash)],
    names: &BTreeMap<String, Word>,
) -> Option<(Hash, Hash)>
    requires { AreNames nodes.now names.now }
    ensures { result ≡ lost_root nodes.now roots.now }
{
    for root in roots {
        if is_lost(nodes, &root.1, names) {
            return Some((root.1, root.1));
        }
    }
    None
}

fn is_lost(nodes: &[LockedNode], hash: &Hash, names: &BTreeMap<String, Word>) -> bool
    requires { AreNames nodes.now names.now }
    ensures { result ≡ is_none (named_by nodes.now hash.now) }
{
    let _ = nodes;
    name_in(names, hash.as_str()).is_none()
}
