//! Versions.

ghost use Rattle.serde_json.specs.View.{view};
ghost use Rattle.serde_json.specs.Find.{as_str};
ghost use Rattle.std.specs.Prelude.{◌≡◌, option_map};
ghost use Rattle.json_readers.specs.Faults.{Gives, given};
ghost use Rattle.json_readers.specs.Texts.{text_of};
ghost use Rattle.json_texts.specs.Forms.{version_in};

use json_readers::{JsonFault, Reader, Wrong, at_root};
use serde_json::Value;
use std::alloc::Global;
use version_order::{Version, VersionFault, reading_laws};

/// A text that is a version.
#[derive(Clone, Copy)]
pub struct VersionText;

impl Reader<Version> for VersionText {
    ghost reads = { λ _. text_of version_in };

    fn read(&self, alloc: Global, value: &Value) -> Result<Version, JsonFault> {
        match value.as_str() {
            Some(text) => read_version(alloc, text),
            None => at_root(alloc, Wrong::WrongKind),
        }
    }
}

/// A version, or the wrong kind where the text is none.
fn read_version(alloc: Global, text: &str) -> Result<Version, JsonFault>
    ensures { Gives result (given (version_in text.now)) }
{
    reading_laws();
    match Version::read(alloc, text) {
        Ok(version) => Ok(version),
        Err(VersionFault::OutOfMemory) => Err(JsonFault::OutOfMemory),
        Err(_) => at_root(alloc, Wrong::WrongKind),
    }
}
