//! The least bits of all models, with a log that shows it; and what a long run is at, for whoever
//! waits.
//!
//! It promises: a model with the least bits, the first bit counting most, and a certificate of
//! them; or a refutation; or a log in which more clauses were learnt than the budget allows.
//! `found_laws` says what each means for all assignments. It stands on `clause_solver` by its
//! contract, and on the words of `proof_log`. It must not know what the bits and clauses mean.
//!
//! A first call of the solver looks for any model. Then the bits are fixed from the first to the
//! last: one that the last model has at 0 stays there, and for another the solver looks for a model
//! in which it is 0. The log of it all is the certificate. No proof rests on how the solver
//! searches, nor on what a device of `progress` does with what it is told.
#![tactic(auto)]

mod descent;
mod fix_bits;
mod found;
mod number;
mod progress;
mod theorems;

pub use descent::{search, search_by_numbers};
pub use found::Found;
pub use number::Number;
pub use progress::{Progress, Stage, Untold};
pub use theorems::found_laws;
