//! The least bits of all models, where a number's clauses come when its bits begin to be settled.
//!
//! It promises what `optimum_search` does, and finds the same bits. While the first numbers are
//! settled the clauses of the later ones are in nobody's way, and their variables need no value.
//! What the search in stages finds is only a proposal: a model that is looked at clause by clause,
//! and a log that `log_checker` reads. Where either falls short, or the budget does,
//! `optimum_search` begins from nothing, so no law speaks of stages. It stands on `clause_solver`,
//! `log_checker` and `optimum_search` by their contracts. It must not know what the numbers count.
#![tactic(auto)]

mod checks;
mod going;
mod ids;
mod model;
mod parts;
mod proposal;
mod search;

pub use search::search_in_stages;
