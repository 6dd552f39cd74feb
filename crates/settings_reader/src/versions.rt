//! Texts of sets of versions.

ghost use Rattle.std.specs.Prelude.{◌≡◌, option_map};
ghost use Rattle.serde_json.specs.View.{view};
ghost use Rattle.settings_reader.specs.Told.{Tells};
ghost use Rattle.settings_reader.specs.Versions.{IsSet, IsVersionSet};

use crate::parser::Parser;
use crate::stop::{Stop, What, at_root};
use serde_json::Value;
use std::alloc::Global;
use version_order::{VersionSet, VersionSetFault, set_reading_laws};

/// A text that is a set of versions, with no range that is empty.
#[derive(Clone, Copy)]
pub(crate) struct SetText;

impl Parser<VersionSet> for SetText {
    ghost tells = { λ _. IsVersionSet };

    fn parse(&self, alloc: Global, value: &Value) -> Result<VersionSet, Stop> {
        match value.as_str() {
            Some(text) => parse_set(alloc, text),
            None => at_root(alloc, What::WrongKind),
        }
    }
}

/// A set of versions, or the wrong kind where the text is none.
fn parse_set(alloc: Global, text: &str) -> Result<VersionSet, Stop>
    ensures { Tells result (IsSet text.now) }
{
    set_reading_laws();
    match VersionSet::read(alloc, text) {
        Ok(set) => Ok(set),
        Err(VersionSetFault::OutOfMemory) => Err(Stop::OutOfMemory),
        Err(_) => at_root(alloc, What::WrongKind),
    }
}
