//! A dependency of a record.

ghost use Rattle.std.specs.Prelude.{◌≡◌, option_map};
ghost use Rattle.serde_json.specs.View.{members_view};
ghost use Rattle.json_readers.specs.Faults.{Gives};
ghost use Rattle.record_reader.specs.Records.{dependency_at, has_virtuals, odd_dependency_key, virtuals_in, virtuals_at};

use crate::{HashText, KindsForm};
use json_readers::{
    Filled, JsonFault, Reader, SetOf, Text, field, first_odd, member, members_of, none_odd,
};
use json_texts::Name;
use reuse_db::Dependency;
use serde_json::{Map, Value};
use std::alloc::Global;
use variant_values::ValueSet;

/// An object with `hash`, `kinds` and, in the format's second version, perhaps `virtuals`.
#[derive(Clone, Copy)]
pub struct DependencyForm {
    /// Whether it may name virtuals.
    pub may_name_virtuals: bool,
}

impl Reader<Dependency> for DependencyForm {
    ghost reads = { λ form. dependency_at form.may_name_virtuals };

    #[tactic(auto, unfolding(crate::specs::Records::dependency_at))]
    fn read(&self, alloc: Global, value: &Value) -> Result<Dependency, JsonFault> {
        let members = members_of(alloc, value)?;
        let names = has_virtuals(members, self.may_name_virtuals);
        let odd = odd_key(members, names);
        let hash = field(alloc, members, odd, "hash", &HashText)?;
        let kinds = field(alloc, members, odd, "kinds", &KindsForm)?;
        let virtuals = read_virtuals(alloc, members, odd, names)?;
        none_odd(alloc, odd)?;
        Ok(Dependency {
            hash,
            kinds,
            virtuals,
        })
    }
}

/// Whether the key `virtuals` stands there, and may.
fn has_virtuals(members: &Map<String, Value>, may_name_virtuals: bool) -> bool
    ensures { result ≡ has_virtuals may_name_virtuals (members_view members.now.entries) }
{
    may_name_virtuals && member(members, "virtuals").is_some()
}

/// The least key that is missing or unknown.
fn odd_key(members: &Map<String, Value>, names: bool) -> Option<&str>
    ensures { option_map (λ k. k.now) result ≡ odd_dependency_key names
        (members_view members.now.entries) }
{
    if names {
        first_odd(members, &["hash", "kinds", "virtuals"])
    } else {
        first_odd(members, &["hash", "kinds"])
    }
}

/// What is provided: nothing where the key is not there.
fn read_virtuals(
    alloc: Global,
    members: &Map<String, Value>,
    odd: Option<&str>,
    names: bool,
) -> Result<ValueSet, JsonFault>
    ensures { Gives result (virtuals_in names (option_map (λ k. k.now) odd.entry)
        (members_view members.now.entries)) }
{
    if names {
        field(alloc, members, odd, "virtuals", &VirtualsForm)
    } else {
        Ok(ValueSet::new(alloc))
    }
}

/// A list of names, at least one and none twice.
#[derive(Clone, Copy)]
pub struct VirtualsForm;

impl Reader<ValueSet> for VirtualsForm {
    ghost reads = { λ _. virtuals_at };

    #[tactic(auto, unfolding(crate::specs::Records::virtuals_at))]
    fn read(&self, alloc: Global, value: &Value) -> Result<ValueSet, JsonFault> {
        let form = Filled(SetOf {
            texts: Name,
            key: None,
            entries: Text(Name),
        });
        let texts = form.read(alloc, value)?;
        Ok(ValueSet::from_words(texts.into_vec()))
    }
}
