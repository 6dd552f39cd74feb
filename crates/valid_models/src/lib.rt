//! Models of a problem's clauses are its valid graphs: three laws, no code.
//!
//! What it is: `right_tables`, that the literals of a closure's table spell just the graphs that
//! may be valid; `right_rules`, that the formulas of the problem's rules say just what they test,
//! where those of paths are exact to the problem's targets; `closure_laws`, which joins both.
//! What it promises: over the clauses of a closure, models decode to just the valid graphs, for
//! each set of demands, and bits behind them that compare as the graphs' numbers rank these.
//! What it stands on: `table_plan` and `graph_decoding` for tables, `graph_formulas` for rules,
//! `graph_encoding` for what is asked of both.
//! What it must not know: how formulas are built, and how models are found.
#![tactic(auto)]

mod closure_theorems;
mod rule_theorems;
mod table_theorems;

pub use closure_theorems::closure_laws;
pub use graph_encoding::{encoding_laws, model_laws, ranking_laws};
pub use rule_theorems::right_rules;
pub use table_plan::{plan_laws, spelling_laws};
pub use table_theorems::right_tables;
