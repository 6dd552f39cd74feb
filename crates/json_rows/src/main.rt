//! Rows of JSON: what settings, records, databases and lock files are read as, compared with
//! tables.
//!
//! Without words it goes over the tables that lie where it runs, and prints each row that differs
//! and how many there are. With words the first says what is answered of each file that the others
//! name, a line each: `settings` what it is read as, `settings_fault` the same, but of settings
//! only that they are some; `database` what it is read as; `lock` how many nodes it has; `again`
//! whether it is written as it was read.
//! The answers in the tables come from the rules, never from what the crates answer.
//! It stands on `settings_reader`, `record_reader`, `lockfile` and `lock_writer`, and on what these
//! read and write. Nothing stands on it.
#![tactic(auto)]

mod locks;
mod nothing;
mod settings;
mod show_locks;
mod table;

use crate::locks::{again_text, file_answer};
use crate::settings::{answer_text, short_text};
use crate::show_locks::read_text;
use crate::table::go_over;
use std::alloc::{AllocError, Global};
use std::{env, fs, io};

/// What a word has answered of a file.
fn answer_of(alloc: Global, what: &str, bytes: Vec<u8>) -> Result<String, AllocError> {
    match what {
        "settings" => answer_text(alloc, &bytes),
        "settings_fault" => short_text(alloc, &bytes),
        "database" => file_answer(alloc, &bytes),
        "lock" => read_text(alloc, &bytes),
        _ => again_text(alloc, bytes),
    }
}

fn print_files(rt: &HostRuntime, what: &str, paths: &[String]) -> io::Result<()> {
    for path in paths {
        let bytes = fs::read(rt, path.as_str())?;
        let answer = answer_of(rt.alloc(), what, bytes)?;
        println!(rt; "{answer}")?;
    }
    Ok(())
}

fn main(rt: HostRuntime) -> io::Result<()> {
    let words: Vec<String> = env::args(&rt)?.skip(1).collect(rt.alloc())?;
    match words.as_slice() {
        [] => {
            go_over(&rt, "settings.txt")?;
            go_over(&rt, "locks.txt")
        }
        [what, paths @ ..] => print_files(&rt, what.as_str(), paths),
    }
}
