//! No file within its limit gives a problem beyond its own.
//!
//! What it is: six laws, with empty bodies, on what can be read of a file of some length.
//! What it promises: of recipes, settings and databases, what `problem` counts of a file is no more
//! than the file's bytes, and so is within the problem's limit where the file is within its own;
//! each record that was read has its variants in order, each with a value.
//! What it stands on: the readers `recipe_reader`, `settings_reader` and `record_reader`; the
//! grammars of `json` and `spec_grammar`, for how much text a value has at least; `problem` for the
//! counts.
//! What it must not know: where files come from, and what the limits are for.
#![tactic(auto)]

mod database_sizes;
mod recipe_sizes;
mod recorded_values;
mod settings_sizes;
mod spec_sizes;
mod weight_bounds;

pub use database_sizes::database_count_laws;
pub use recipe_sizes::size_laws;
pub use recorded_values::value_laws;
pub use settings_sizes::settings_count_laws;
pub use spec_sizes::spec_count_laws;
pub use weight_bounds::count_laws;
