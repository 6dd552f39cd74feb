//! The roots of a lock file beside those that are asked for.

ghost use Rattle.std.specs.Prelude.{◌≡◌, find, IfOk};
ghost use Rattle.std.specs.Str.{bytes_eq};
ghost use Rattle.std.specs.Option.{option_copied};
ghost use Rattle.spec_grammar.specs.Canonical.{spec_text};
ghost use Rattle.run_task.specs.LockRoots.{hash_of_node, is_hash_of, is_root_of, are_roots_of};

use plain_data::Word;
use spec_grammar::{Spec, write_spec};
use spec_hash::Hash;
use std::alloc::{AllocError, Global};

fn entry_of_node<'a>(hashes: &'a [(Word, Hash)], name: &str) -> Option<&'a (Word, Hash)>
    ensures { option_copied result ≡ find (λ h. bytes_eq h.0 name.now) hashes.now }
{
    hashes.iter().find(|entry| entry.0.as_str() == name)
}

/// The hash of the node of a name.
fn hash_of_node(hashes: &[(Word, Hash)], name: &str) -> Option<Hash>
    ensures { result ≡ hash_of_node hashes.now name.now }
{
    match entry_of_node(hashes, name) {
        Some(entry) => Some(entry.1),
        None => None,
    }
}

/// Whether a hash is that of the node that a spec asks for.
fn is_hash_of(hashes: &[(Word, Hash)], spec: &Spec, hash: &Hash) -> bool
    ensures { result ≡ is_hash_of hashes.now spec.now hash.now }
{
    let Some(name) = &spec.top.name else {
        return false;
    };
    match hash_of_node(hashes, name.as_str()) {
        Some(own) => hash.as_str() == own.as_str(),
        None => false,
    }
}

fn has_text(alloc: Global, text: &str, spec: &Spec) -> Result<bool, AllocError>
    ensures { IfOk result (λ is. is ≡ bytes_eq text.now (spec_text spec.now)) }
{
    let canonical = write_spec(alloc, spec)?;
    Ok(*text.as_bytes() == *canonical.as_slice())
}

/// Whether a root has the canonical text of a spec, and the hash of its node.
fn is_root_of(
    alloc: Global,
    hashes: &[(Word, Hash)],
    spec: &Spec,
    root: &(Word, Hash),
) -> Result<bool, AllocError>
    ensures { IfOk result (λ is. is ≡ is_root_of hashes.now spec.now root.now) }
{
    Ok(has_text(alloc, root.0.as_str(), spec)? && is_hash_of(hashes, spec, &root.1))
}

/// Whether roots are those of specs, one of each and in order.
pub fn are_roots_of(
    alloc: Global,
    hashes: &[(Word, Hash)],
    specs: &[Spec],
    roots: &[(Word, Hash)],
) -> Result<bool, AllocError>
    ensures { IfOk result (λ are. are ≡ are_roots_of hashes.now specs.now roots.now) }
{
    let mut left = roots;
    for spec in specs {
        let Some((root, rest)) = left.split_first() else {
            return Ok(false);
        };
        if !is_root_of(alloc, hashes, spec, root)? {
            return Ok(false);
        }
        left = rest;
    }
    Ok(left.is_empty())
}
