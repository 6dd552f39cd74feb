//! What reads a value.

ghost use Rattle.serde_json.specs.View.{view};
ghost use Rattle.json_readers.specs.Faults.{Gives};

use crate::JsonFault;
use serde_json::Value;
use std::alloc::Global;

/// Reads the values of one form as a `T`.
pub trait Reader<T> {
    ghost use Rattle.serde_json.specs.Data.{Data};
    ghost use Rattle.json_readers.specs.Faults.{Reading};

    // What a value means, or the first thing that is wrong with it.
    ghost reads: { Self → Data → Reading T };

    /// What the value means, or its first fault.
    fn read(&self, alloc: Global, value: &Value) -> Result<T, JsonFault>
        ensures { Gives result (reads self.now (view value.now)) };
}
