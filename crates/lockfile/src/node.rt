//! A node of a lock file.
ghost use Rattle.std.specs.Prelude.{◌≡◌, codes, option_and_then, option_map};
ghost use Rattle.serde_json.specs.Find.{as_str, get_member};
ghost use Rattle.serde_json.specs.View.{members_view};
ghost use Rattle.json_readers.specs.Faults.{Gives};
ghost use Rattle.lockfile.specs.Files.{body_at, entry_at, head_at, is_external, node_at, origin_by};
ghost use Rattle.lockfile.specs.Files.{origin_meaning};

use graph_core::Origin;
use json_readers::{
    JsonFault, Reader, Text, TextForm, WholeNumber, Wrong, at_root, field, first_odd, member,
    members_of,
};
use plain_data::Word;
use record_reader::{Front, Middle, read_back, read_front, read_middle};
use reuse_db::Record;
use serde_json::{Map, Value};
use spec_hash::Hash;
use std::alloc::Global;

/// A node of a lock file: its record, and where it comes from.
#[derive(Debug, Drop)]
pub struct LockedNode {
    pub described: Record,
    pub origin: Origin,
}

/// An object with the keys of a record, `entry` and `origin`.
#[derive(Clone, Copy)]
pub(crate) struct NodeForm {
    /// Whether dependencies may name virtuals.
    pub(crate) may_name_virtuals: bool,
}

impl Reader<LockedNode> for NodeForm {
    ghost reads = { λ form. node_at form.may_name_virtuals };

    #[tactic(auto, unfolding(crate::specs::Files::node_at))]
    fn read(&self, alloc: Global, value: &Value) -> Result<LockedNode, JsonFault> {
        let members = members_of(alloc, value)?;
        let keys = [
            "compiler",
            "dependencies",
            "entry",
            "external",
            "hash",
            "name",
            "origin",
            "os",
            "target",
            "variants",
            "version",
        ];
        let odd = first_odd(members, &keys);
        let head = read_head(alloc, members, odd, self.may_name_virtuals)?;
        let body = read_body(alloc, members, odd)?;
        let origin = origin_by(head.entry, &body.origin, &body.middle.hash);
        let described = read_back(alloc, members, odd, head.front, body.middle)?;
        Ok(LockedNode { described, origin })
    }
}

/// The keys up to `entry`.
#[derive(Drop)]
pub struct NodeHead {
    pub front: Front,
    pub entry: Option<u64>,
}

/// The keys behind them, up to `origin`.
#[derive(Drop)]
pub struct Body {
    pub middle: Middle,
    pub origin: Word,
}

/// The keys up to `entry`.
#[tactic(auto, unfolding(crate::specs::Files::head_at))]
fn read_head(
    alloc: Global,
    members: &Map<String, Value>,
    odd: Option<&str>,
    may_name_virtuals: bool,
) -> Result<NodeHead, JsonFault>
    ensures { Gives result (head_at may_name_virtuals (option_map (λ k. k.now) odd.entry)
        (members_view members.now.entries)) }
{
    let front = read_front(alloc, members, odd, may_name_virtuals)?;
    let form = EntryForm {
        external: is_external(members),
    };
    let entry = field(alloc, members, odd, "entry", &form)?;
    Ok(NodeHead { front, entry })
}

#[tactic(auto, unfolding(crate::specs::Files::body_at))]
fn read_body(
    alloc: Global,
    members: &Map<String, Value>,
    odd: Option<&str>,
) -> Result<Body, JsonFault>
    ensures { Gives result (body_at (option_map (λ k. k.now) odd.entry)
        (members_view members.now.entries)) }
{
    let middle = read_middle(alloc, members, odd)?;
    let origin = field(alloc, members, odd, "origin", &Text(OriginText))?;
    Ok(Body { middle, origin })
}

fn is_external(members: &Map<String, Value>) -> bool
    ensures { result ≡ is_external (members_view members.now.entries) }
{
    match origin_in(members) {
        Some(text) => text == "external",
        None => false,
    }
}

fn origin_in<'v>(members: &'v Map<String, Value>) -> Option<&'v str>
    ensures { option_map (λ t. t.now) result ≡ option_and_then as_str
        (get_member (codes "origin") (members_view members.now.entries)) }
{
    member(members, "origin")?.as_str()
}

/// The place of an external's entry, and null for another node.
#[derive(Clone, Copy)]
struct EntryForm {
    external: bool,
}

impl Reader<Option<u64>> for EntryForm {
    ghost reads = { λ form. entry_at form.external };

    fn read(&self, alloc: Global, value: &Value) -> Result<Option<u64>, JsonFault> {
        if self.external {
            return Ok(Some(WholeNumber.read(alloc, value)?));
        }
        match value {
            Value::Null => Ok(None),
            _ => at_root(alloc, Wrong::WrongKind),
        }
    }
}

/// `built`, `external` or `installed`.
#[derive(Clone, Copy)]
struct OriginText;

impl TextForm for OriginText {
    ghost means = { λ _. origin_meaning };

    fn meaning<'t>(&self, text: &'t str) -> Option<&'t str> {
        if text == "built" || text == "external" || text == "installed" {
            Some(text)
        } else {
            None
        }
    }
}

fn origin_by(entry: Option<u64>, text: &Word, hash: &Hash) -> Origin
    ensures { result ≡ origin_by entry text.now hash.now }
{
    match entry {
        Some(entry) => Origin::External(entry),
        None if text.as_str() == "installed" => Origin::Installed(*hash),
        None => Origin::Built,
    }
}
