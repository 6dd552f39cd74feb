//! What a search for the least bits ends with.

use plain_data::List;
use proof_log::Log;

/// What a search for the least bits ends with.
#[derive(Drop)]
pub enum Found {
    /// A model whose bits are the least of all models, and a certificate of these bits.
    Optimal { model: List<bool>, log: Log },
    /// There is no model, as the log shows.
    Refuted { log: Log },
    /// One clause more than the budget was learnt, each distinct and useful, as the log shows.
    Spent { log: Log },
}

/// A value that may be lent to threads, and handed back by them.
fn crosses<T: Send + Sync>() {}

/// What was found does.
fn found_crosses() {
    crosses::<Found>();
}
