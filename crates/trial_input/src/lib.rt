//! Inputs that are made for trials.
//!
//! What it is: `make`, a repository of so many packages, drawn from a seed.
//! What it promises: exactly the files that the definition gives, so that the same words make the
//! same input everywhere.
//! What it stands on: `outside_desk` for the desk in memory.
//! What it must not know: what recipes mean, and who reads them.
#![tactic(auto)]

mod draws;
mod input;
mod recipes;

pub use input::make;
