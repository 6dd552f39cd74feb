//! Rows of library calls: what each call has to answer, and the program that compares.
//!
//! A row is `CALL ARGUMENT.. -> ANSWER`, as `version.compare 1.0-rc1 1.0 -> Less`; README.md has
//! the calls. The answers come from the rules, from published vectors and from other programs,
//! never from what the calls answer.
//! It ends with 0 where there were rows in each of the files that its words name, and none
//! differed, and else with 1. It stands on the crates that it calls. Nothing stands on it.
#![tactic(auto)]

mod fields;
mod fronts;
mod hashes;
mod rows;
mod sets;
mod shown;
mod specs;
mod stop;
mod values;
mod versions;

use crate::rows::go_over;
use std::process::ExitCode;
use std::{env, io};

/// Whether there were files, and all their rows are as they are wanted.
fn go_over_all(rt: &HostRuntime) -> io::Result<bool> {
    let words: Vec<String> = env::args(rt)?.skip(1).collect(rt.alloc())?;
    let mut are_same = !words.is_empty();
    for word in words.as_slice() {
        let is_same = go_over(rt, word.as_str())?;
        are_same = are_same && is_same;
    }
    Ok(are_same)
}

fn main(rt: HostRuntime) -> ExitCode {
    match go_over_all(&rt) {
        Ok(true) => ExitCode::SUCCESS,
        _ => ExitCode::FAILURE,
    }
}
