//! Worked rows of plain data and devices: the tests of the lowest layers, as tables.
//!
//! Each test goes over a table of inputs and of the answers that they must get. The answers come
//! from the rules, never from what the crates answer.
//! It stands on the crates that it tests. Nothing stands on it.
#![tactic(auto)]

#[cfg(test)]
mod desks;
#[cfg(test)]
mod faults;
#[cfg(test)]
mod machine;
#[cfg(test)]
mod one_byte_desk;
#[cfg(test)]
mod plain;
#[cfg(test)]
mod same;
#[cfg(test)]
mod sinks;
#[cfg(test)]
mod whole_files;
