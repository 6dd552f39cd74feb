//! The lock file of a valid graph.

ghost use Rattle.std.specs.Prelude.{◌≡◌, true, All, IfOk};
ghost use Rattle.std.specs.Str.{IsUtf8};
ghost use Rattle.spec_grammar.specs.Canonical.{spec_text};
ghost use Rattle.graph_rules.specs.Valid.{valid};
ghost use Rattle.json_readers.specs.Json.{IsJson};
ghost use Rattle.lock_writer.specs.Texts.{lock_data};
ghost use Rattle.run_output.specs.Locks.{lock_of};

use graph_core::Graph;
use lock_writer::write_lock;
use problem::Problem;
use std::alloc::{AllocError, Global};

/// The text of the lock file of a valid graph, with the problem's roots; as JSON it is read as the
/// value that it was written for.
pub fn write_valid(alloc: Global, problem: &Problem, graph: &Graph) -> Result<Vec<u8>, AllocError>
    requires keeps { valid problem.now graph.now ≡ true }
    requires texts { All (λ spec. IsUtf8 (spec_text spec)) problem.now.roots }
    ensures text { IfOk result (λ text. text.items ≡ lock_of problem.now graph.now) }
    ensures read { IfOk result (λ text. IsJson text.items
        (lock_data graph.now problem.now.database problem.now.roots)) }
{
    // `nodes` says that the graph is one.
    let _nodes = graph.nodes();
    write_lock(alloc, graph, problem.database(), problem.roots())
}
