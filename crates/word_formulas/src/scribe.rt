//! What builds the formulas of words, parts and rules.

use literal_table::LiteralTable;
use std::alloc::Global;

/// The literals of nodes: whatever is said of them is said through this table.
#[derive(Clone, Copy)]
pub struct Scribe<'a> {
    pub alloc: Global,
    pub table: &'a LiteralTable,
}
