//! A record, and its keys in three runs: a lock file has keys of its own between them.

ghost use Rattle.std.specs.Prelude.{option_map};
ghost use Rattle.serde_json.specs.View.{members_view};
ghost use Rattle.json_readers.specs.Faults.{Gives};
ghost use Rattle.record_reader.specs.Records.{front_at, middle_at, back_at, record_entry_at};

use crate::{CompilerForm, DependencyForm, HashText, ValuesForm};
use graph_core::Compiler;
use json_readers::{
    AnyText, JsonFault, MapOf, NullOr, Reader, SetOf, Text, field, first_odd, members_of, none_odd,
};
use json_texts::{Name, Value as ValueText, VersionText};
use plain_data::{List, Word};
use reuse_db::{Dependency, Record};
use serde_json::{Map, Value};
use spec_hash::Hash;
use std::alloc::Global;

/// The keys `compiler` and `dependencies`.
#[derive(Drop)]
pub struct Front {
    pub compiler: Option<Compiler>,
    pub dependencies: List<Dependency>,
}

/// The keys `external`, `hash` and `name`.
#[derive(Drop)]
pub struct Middle {
    pub external: Option<Word>,
    pub hash: Hash,
    pub name: Word,
}

/// An object with just the keys of a record: missing and unknown keys go with the others in byte
/// order.
#[derive(Clone, Copy)]
pub struct RecordForm {
    /// Whether dependencies may name virtuals.
    pub may_name_virtuals: bool,
}

impl Reader<Record> for RecordForm {
    ghost reads = { λ form. record_entry_at form.may_name_virtuals };

    #[tactic(auto, unfolding(crate::specs::Records::record_entry_at))]
    fn read(&self, alloc: Global, value: &Value) -> Result<Record, JsonFault> {
        let members = members_of(alloc, value)?;
        let keys = [
            "compiler",
            "dependencies",
            "external",
            "hash",
            "name",
            "os",
            "target",
            "variants",
            "version",
        ];
        let odd = first_odd(members, &keys);
        let front = read_front(alloc, members, odd, self.may_name_virtuals)?;
        let middle = read_middle(alloc, members, odd)?;
        read_back(alloc, members, odd, front, middle)
    }
}

/// The first keys, where none up to them is odd.
#[tactic(auto, unfolding(crate::specs::Records::front_at))]
pub fn read_front(
    alloc: Global,
    members: &Map<String, Value>,
    odd: Option<&str>,
    may_name_virtuals: bool,
) -> Result<Front, JsonFault>
    ensures { Gives result (front_at may_name_virtuals (option_map (λ k. k.now) odd.entry)
        (members_view members.now.entries)) }
{
    let compiler = field(alloc, members, odd, "compiler", &NullOr(CompilerForm))?;
    let form = SetOf {
        texts: AnyText,
        key: Some("hash"),
        entries: DependencyForm { may_name_virtuals },
    };
    let dependencies = field(alloc, members, odd, "dependencies", &form)?;
    Ok(Front {
        compiler,
        dependencies,
    })
}

/// The next keys, where none up to them is odd.
#[tactic(auto, unfolding(crate::specs::Records::middle_at))]
pub fn read_middle(
    alloc: Global,
    members: &Map<String, Value>,
    odd: Option<&str>,
) -> Result<Middle, JsonFault>
    ensures { Gives result (middle_at (option_map (λ k. k.now) odd.entry)
        (members_view members.now.entries)) }
{
    let external = field(alloc, members, odd, "external", &NullOr(Text(AnyText)))?;
    let hash = field(alloc, members, odd, "hash", &HashText)?;
    let name = field(alloc, members, odd, "name", &Text(Name))?;
    Ok(Middle {
        external,
        hash,
        name,
    })
}

/// The last keys, where no key is odd, and so the record.
#[tactic(auto, unfolding(crate::specs::Records::back_at))]
pub fn read_back(
    alloc: Global,
    members: &Map<String, Value>,
    odd: Option<&str>,
    front: Front,
    middle: Middle,
) -> Result<Record, JsonFault>
    ensures { Gives result (back_at front middle (option_map (λ k. k.now) odd.entry)
        (members_view members.now.entries)) }
{
    let os = field(alloc, members, odd, "os", &Text(ValueText))?;
    let target = field(alloc, members, odd, "target", &Text(ValueText))?;
    let form = MapOf {
        keys: Name,
        values: ValuesForm,
    };
    let variants = field(alloc, members, odd, "variants", &form)?;
    let version = field(alloc, members, odd, "version", &VersionText)?;
    none_odd(alloc, odd)?;
    Ok(Record {
        hash: middle.hash,
        name: middle.name,
        version,
        variants,
        compiler: front.compiler,
        os,
        target,
        external: middle.external,
        dependencies: front.dependencies,
    })
}
