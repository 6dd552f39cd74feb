//! JSON texts.

ghost use Rattle.std.specs.Prelude.{IfOk, MatchOption};
ghost use Rattle.serde_json.specs.View.{view};
ghost use Rattle.json_readers.specs.Json.{IsJson, IsNoJson};

use serde_json::Value;
use std::alloc::{AllocError, Global};

/// The value that bytes are as a JSON text (RFC 8259), and `None` where they are none.
///
/// Of a key that is repeated the last value counts. A number that is no whole one from -2^63 to
/// 2^64 - 1 is the nearest float, as is `-0`; one that is too large for a float is no JSON here,
/// and neither is a lone surrogate, nor lists and objects that nest more than 127 deep.
pub fn read_json(alloc: Global, bytes: &[u8]) -> Result<Option<Value>, AllocError>
    ensures { IfOk result (λ value. MatchOption value (IsNoJson bytes.now)
        (λ v. IsJson bytes.now (view v))) }
{
    match Value::from_slice(alloc, bytes) {
        Ok(value) => Ok(Some(value)),
        Err(error) if error.is_memory() => Err(AllocError),
        Err(_) => Ok(None),
    }
}
