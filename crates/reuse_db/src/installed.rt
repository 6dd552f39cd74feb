//! The node that stands for a record.

ghost use Rattle.std.specs.Prelude.{◌≡◌, IfOk};
ghost use Rattle.reuse_db.specs.Installed.{installed_node};

use crate::Record;
use graph_core::{Node, Origin};
use plain_data::Duplicate;
use std::alloc::{AllocError, Global};

/// The node of a record: it has the record's attributes, and is installed.
#[tactic(auto, unfolding(crate::specs::Installed::installed_node))]
pub fn installed_node(alloc: Global, entry: &Record) -> Result<Node, AllocError>
    ensures { IfOk result (λ node. node ≡ installed_node entry.now) }
{
    Ok(Node {
        name: entry.name.duplicate(alloc)?,
        version: entry.version.duplicate(alloc)?,
        variants: entry.variants.duplicate(alloc)?,
        compiler: entry.compiler.duplicate(alloc)?,
        os: entry.os.duplicate(alloc)?,
        target: entry.target.duplicate(alloc)?,
        prefix: entry.external.duplicate(alloc)?,
        origin: Origin::Installed(entry.hash),
    })
}
