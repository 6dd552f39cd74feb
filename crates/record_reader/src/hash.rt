//! Hashes.

ghost use Rattle.serde_json.specs.View.{view};
ghost use Rattle.serde_json.specs.Find.{as_str};
ghost use Rattle.std.specs.Prelude.{◌≡◌, option_and_then};
ghost use Rattle.json_readers.specs.Texts.{text_of};
ghost use Rattle.record_reader.specs.Texts.{hash_meaning};

use json_readers::{JsonFault, Reader, Wrong, at_root};
use serde_json::Value;
use spec_hash::Hash;
use std::alloc::Global;

/// A text that is a hash: 32 characters of `a` to `z` and `2` to `7`.
#[derive(Clone, Copy)]
pub struct HashText;

impl Reader<Hash> for HashText {
    ghost reads = { λ _. text_of hash_meaning };

    fn read(&self, alloc: Global, value: &Value) -> Result<Hash, JsonFault> {
        match hash_in(value) {
            Some(hash) => Ok(hash),
            None => at_root(alloc, Wrong::WrongKind),
        }
    }
}

fn hash_in(value: &Value) -> Option<Hash>
    ensures { result ≡ option_and_then hash_meaning (as_str (view value.now)) }
{
    Hash::read(value.as_str()?)
}
