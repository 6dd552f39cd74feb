//! The clauses of a problem, whose models are its valid graphs.
//!
//! What it is: `encode`, over whoever gives the formulas (`RuleFormulas`), and its laws.
//! What it promises: the list of clauses equals a computing definition. Where the table and the
//! formulas are right, an assignment that meets the clauses that are asked for decodes to a graph
//! that is valid for the demands that are asked for, and each such graph is the decoding of one.
//! What it stands on: `literal_table`, `graph_levels`, and `clause_formulas` for what is asserted.
//! What it must not know: how tables and formulas are made, and how models are found.
#![tactic(auto)]

mod added;
mod calls;
mod formulas;
mod rules;
mod theorems;

pub use calls::{ProblemClauses, encode};
pub use formulas::RuleFormulas;
pub use theorems::{demand_laws, encoding_laws, model_laws, ranking_laws};
