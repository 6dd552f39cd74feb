//! Worked rows of valid graphs and their costs, by computation.
#![tactic(auto)]

mod broken;
mod naming;
mod rows;

pub use broken::{broken_directives, broken_nodes, broken_wholes};
pub use naming::{broken_names, named_rows, recorded_rows};
pub use rows::{
    cycle_beside_row, external_row, installed_row, one_of_row, realistic_row, root_rows,
    run_child_row, variant_row,
};
