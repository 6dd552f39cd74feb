//! How much is done at once.
use std::thread::{Threads, available_parallelism};

/// How many threads are worth their start: as many as there are processors. No answer depends on
/// it.
pub(crate) fn at_once<R: Threads>(rt: &R) -> u64 {
    match available_parallelism(rt) {
        Ok(processors) => processors.get() as u64,
        Err(_) => 1,
    }
}
