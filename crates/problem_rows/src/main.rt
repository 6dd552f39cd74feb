//! Rows of targets, graphs and problems: what calls on them, on recipes, on requested specs, on
//! databases and on plans answer, compared with tables.
//!
//! It goes over `rows.txt` and `graphs.txt`, which lie where it runs, and prints each row that
//! differs and how many there are. `table` says how a row is written, `ask` and `over` which
//! questions there are.
//! The answers in the tables come from the rules, never from what the crates answer.
//! It stands on `target_table`, `graph_core`, `virtuals`, `condition_rules`, `problem`,
//! `possible_closure`, `spec_find` and `install_plan`, and reads recipes, specs and graphs for
//! them. Nothing stands on it.
#![tactic(auto)]

mod ask;
mod found;
mod graph;
mod graphs;
mod nodes;
mod over;
mod plans;
mod recipes;
mod roots;
mod show;
mod site;
mod table;
mod targets;

use std::io;

fn main(rt: HostRuntime) -> io::Result<()> {
    table::go_over(&rt, "rows.txt")?;
    table::go_over(&rt, "graphs.txt")
}
