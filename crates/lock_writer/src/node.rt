//! Nodes as they are written.
ghost use Rattle.std.specs.Prelude.{◌≡◌, IfOk};
ghost use Rattle.serde_json.specs.View.{view};
ghost use Rattle.lock_writer.specs.Texts.{entry_data, node_data, origin_word};

use graph_core::Origin;
use reuse_db::{Record, record_value};
use serde_json::{Value, put};
use std::alloc::{AllocError, Global};

/// A node: its record with its hash, and where it comes from.
#[tactic(auto, unfolding(crate::specs::Texts::node_data))]
pub(crate) fn node_value(
    alloc: Global,
    entry: &Record,
    origin: &Origin,
) -> Result<Value, AllocError>
    ensures { IfOk result (λ value. view value ≡ node_data entry.now origin.now) }
{
    match record_value(alloc, entry)? {
        Value::Object(mut members) => {
            put(&mut members, alloc, "entry", entry_value(origin))?;
            let hash = Value::try_from_str(alloc, entry.hash.as_str())?;
            put(&mut members, alloc, "hash", hash)?;
            let origin = Value::try_from_str(alloc, origin_text(origin))?;
            put(&mut members, alloc, "origin", origin)?;
            Ok(Value::Object(members))
        }
        _ => unreachable!(),
    }
}

fn entry_value(origin: &Origin) -> Value
    ensures { view result ≡ entry_data origin.now }
{
    match origin {
        Origin::External(entry) => Value::from(*entry),
        _ => Value::Null,
    }
}

fn origin_text(origin: &Origin) -> &'static str
    ensures { result.now ≡ origin_word origin.now }
{
    match origin {
        Origin::Built => "built",
        Origin::External(_) => "external",
        Origin::Installed(_) => "installed",
    }
}
