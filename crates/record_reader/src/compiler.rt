//! The compiler of a record.

ghost use Rattle.record_reader.specs.Records.{compiler_at};

use graph_core::Compiler;
use json_readers::{JsonFault, Reader, Text, field, first_odd, members_of, none_odd};
use json_texts::{Name, VersionText};
use serde_json::Value;
use std::alloc::Global;

/// An object with `name` and `version`.
#[derive(Clone, Copy)]
pub struct CompilerForm;

impl Reader<Compiler> for CompilerForm {
    ghost reads = { λ _. compiler_at };

    #[tactic(auto, unfolding(crate::specs::Records::compiler_at))]
    fn read(&self, alloc: Global, value: &Value) -> Result<Compiler, JsonFault> {
        let members = members_of(alloc, value)?;
        let odd = first_odd(members, &["name", "version"]);
        let name = field(alloc, members, odd, "name", &Text(Name))?;
        let version = field(alloc, members, odd, "version", &VersionText)?;
        none_odd(alloc, odd)?;
        Ok(Compiler { name, version })
    }
}
