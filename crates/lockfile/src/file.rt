//! A whole lock file.
ghost use Rattle.std.specs.Prelude.{◌≡◌, [], IfOk, option_map};
ghost use Rattle.std.specs.List.{list_any};
ghost use Rattle.std.specs.Str.{bytes_eq};
ghost use Rattle.variant_values.specs.Texts.{with_texts};
ghost use Rattle.serde_json.specs.View.{members_view};
ghost use Rattle.json_readers.specs.Faults.{Gives};
ghost use Rattle.lockfile.specs.Files.{node_among, file_at, node_names, providers_at, root_at, roots_at};

use crate::node::{LockedNode, NodeForm};
use json_readers::{
    AnyText, JsonFault, ListOf, MapOf, Reader, Text, TextForm, field, first_odd, members_of,
    none_odd,
};
use json_texts::Name;
use plain_data::{Duplicate, List, Word};
use record_reader::{FileVersion, HashText, may_name_virtuals};
use serde_json::{Map, Value};
use spec_hash::Hash;
use std::alloc::{AllocError, Global};
use variant_values::ValueSet;

/// What a lock file says, each node by itself.
#[derive(Debug, Drop)]
pub struct File {
    pub nodes: List<LockedNode>,
    /// Each virtual with the package that provides it, in byte order of virtuals.
    pub providers: List<(Word, Word)>,
    /// Each requested spec, and the hash of the node that it became.
    pub roots: List<(Word, Hash)>,
    /// That of the format, 1 or 2.
    pub version: u64,
}

/// An object with `nodes`, `providers`, `roots` and `version`.
#[derive(Clone, Copy)]
pub(crate) struct FileForm;

impl Reader<File> for FileForm {
    ghost reads = { λ _. file_at };

    #[tactic(auto, unfolding(crate::specs::Files::file_at))]
    fn read(&self, alloc: Global, value: &Value) -> Result<File, JsonFault> {
        let members = members_of(alloc, value)?;
        let odd = first_odd(members, &["nodes", "providers", "roots", "version"]);
        let form = NodeForm {
            may_name_virtuals: may_name_virtuals(members),
        };
        let nodes = field(alloc, members, odd, "nodes", &ListOf(form))?;
        let providers = read_providers(alloc, members, odd, &nodes)?;
        let (roots, version) = read_roots(alloc, members, odd)?;
        Ok(File {
            nodes,
            providers,
            roots,
            version,
        })
    }
}

/// Each virtual with its package, which is one of the nodes.
fn read_providers(
    alloc: Global,
    members: &Map<String, Value>,
    odd: Option<&str>,
    nodes: &List<LockedNode>,
) -> Result<List<(Word, Word)>, JsonFault>
    ensures { Gives result (providers_at nodes.now (option_map (λ k. k.now) odd.entry)
        (members_view members.now.entries)) }
{
    let names = names_in(alloc, nodes.as_slice())?;
    let form = MapOf {
        keys: Name,
        values: Text(Among { names: &names }),
    };
    field(alloc, members, odd, "providers", &form)
}

#[tactic(auto, unfolding(crate::specs::Files::roots_at))]
fn read_roots(
    alloc: Global,
    members: &Map<String, Value>,
    odd: Option<&str>,
) -> Result<(List<(Word, Hash)>, u64), JsonFault>
    ensures { Gives result (roots_at (option_map (λ k. k.now) odd.entry)
        (members_view members.now.entries)) }
{
    let roots = field(alloc, members, odd, "roots", &ListOf(RootForm))?;
    let version = field(alloc, members, odd, "version", &FileVersion)?;
    none_odd(alloc, odd)?;
    Ok((roots, version))
}

fn names_in(alloc: Global, nodes: &[LockedNode]) -> Result<ValueSet, AllocError>
    ensures { IfOk result (λ set. set ≡ with_texts [] (node_names nodes.now)) }
{
    Ok(ValueSet::from_words(names_of(alloc, nodes)?))
}

/// The names of the nodes, in their order.
pub(crate) fn names_of(alloc: Global, nodes: &[LockedNode]) -> Result<Vec<Word>, AllocError>
    ensures { IfOk result (λ names. names.items ≡ node_names nodes.now) }
{
    let mut names = Vec::new(alloc);
    for node in nodes {
        names.push(node.described.name.duplicate(alloc)?)?;
    }
    Ok(names)
}

/// The name of one of the nodes.
#[derive(Clone, Copy)]
struct Among<'a> {
    names: &'a ValueSet,
}

impl<'a> TextForm for Among<'a> {
    ghost means = { λ form. node_among form.names.now };

    fn meaning<'t>(&self, text: &'t str) -> Option<&'t str> {
        if is_among(self.names, text) {
            Some(text)
        } else {
            None
        }
    }
}

fn is_among(names: &ValueSet, text: &str) -> bool
    ensures { result ≡ list_any (bytes_eq text.now) names.now }
{
    names.contains(text)
}

/// An object with `hash` and `spec`.
#[derive(Clone, Copy)]
struct RootForm;

impl Reader<(Word, Hash)> for RootForm {
    ghost reads = { λ _. root_at };

    #[tactic(auto, unfolding(crate::specs::Files::root_at))]
    fn read(&self, alloc: Global, value: &Value) -> Result<(Word, Hash), JsonFault> {
        let members = members_of(alloc, value)?;
        let odd = first_odd(members, &["hash", "spec"]);
        let hash = field(alloc, members, odd, "hash", &HashText)?;
        let spec = field(alloc, members, odd, "spec", &Text(AnyText))?;
        none_odd(alloc, odd)?;
        Ok((spec, hash))
    }
}
