//! What the encoding of each problem says, free of any call.
//!
//! What it is: laws of `rule_clauses` and `encoding_of`, the one encoding of a problem as a
//! function. What it promises: no code. Who brings a solver of their own, over the clauses that
//! `encode_dimacs` prints, needs just these: that the models are the valid graphs, and that the
//! bits compare as costs. What it stands on: `problem_encoding` for the encoding, `ranked_costs`
//! for the laws of its parts. What it must not know: how clauses are made in memory, and how models
//! are found.
#![tactic(auto)]

mod theorems;

pub use theorems::encoding_laws;
