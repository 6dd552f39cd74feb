//! A table: its rows, one after the other.
//!
//! A row is a line with a letter and a text, and then a line `= ANSWER`. The letters: `S` settings,
//! `C` a record, `D` a list of records, `B` a whole database, `L` a lock file, `W` alone: the last
//! lock file, written again with the last list of records; `N` alone: the lock file of no node,
//! written and read again. The word `standard` alone: the standard settings. A line that begins
//! with `#` is a comment.

use crate::locks::{
    Kept, database_answer, file_answer, lock_answer, record_answer, written_answer,
};
use crate::nothing::nothing_answer;
use crate::settings::{answer_text, standard_text};
use reuse_db::Database;
use std::alloc::{AllocError, Global};
use std::{fs, io};

/// What was met so far.
#[derive(Drop)]
struct Tally {
    kept: Kept,
    /// The answer to the row that waits for the one wanted.
    shown: String,
    rows: u64,
    differ: u64,
}

fn compare(rt: &HostRuntime, tally: &mut Tally, wanted: &str) -> io::Result<()> {
    tally.rows = tally.rows.saturating_add(1);
    let shown = tally.shown.as_str();
    if shown == wanted {
        return Ok(());
    }
    println!(rt; "wanted {wanted}")?;
    println!(rt; "got    {shown}")?;
    tally.differ = tally.differ.saturating_add(1);
    Ok(())
}

fn answer(alloc: Global, kept: &mut Kept, line: &str) -> Result<String, AllocError> {
    if let Some(text) = line.strip_prefix("S ") {
        answer_text(alloc, text.as_bytes())
    } else if let Some(text) = line.strip_prefix("C ") {
        record_answer(alloc, text)
    } else if let Some(text) = line.strip_prefix("D ") {
        database_answer(alloc, kept, text)
    } else if let Some(text) = line.strip_prefix("B ") {
        file_answer(alloc, text.as_bytes())
    } else if let Some(text) = line.strip_prefix("L ") {
        lock_answer(alloc, kept, text)
    } else if line == "N" {
        nothing_answer(alloc)
    } else if line == "standard" {
        standard_text(alloc)
    } else {
        written_answer(alloc, kept)
    }
}

fn take_line(rt: &HostRuntime, tally: &mut Tally, line: &str) -> io::Result<()> {
    if let Some(wanted) = line.strip_prefix("= ") {
        return compare(rt, tally, wanted);
    }
    if !line.starts_with("#") {
        tally.shown = answer(rt.alloc(), &mut tally.kept, line)?;
    }
    Ok(())
}

/// Goes over a table, and prints what differs and how many rows there are.
pub(crate) fn go_over(rt: &HostRuntime, name: &str) -> io::Result<()> {
    let text = fs::read_to_string(rt, name)?;
    let mut tally = Tally {
        kept: Kept {
            database: Database::empty(rt.alloc()),
            lock: None,
            text: Vec::new(rt.alloc()),
        },
        shown: String::new(rt.alloc()),
        rows: 0,
        differ: 0,
    };
    for line in text.lines() {
        take_line(rt, &mut tally, line)?;
    }
    let Tally { rows, differ, .. } = tally;
    println!(rt; "{name}: {rows} rows, {differ} differ")
}
