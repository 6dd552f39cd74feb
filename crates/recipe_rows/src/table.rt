//! A table: its rows, one after the other.
//!
//! A row is two lines, `text «..»` with escapes or `file NAME`, and then `want ANSWER`, or
//! `want_file NAME` for an answer that lies in a file. Other lines are comments. White space in an
//! answer does not count.

use crate::escape::unescaped;
use crate::stage::{Stage, answer};
use std::rt::Files;
use std::thread::Threads;
use std::{fs, io};

/// What was met so far.
#[derive(Drop)]
struct Tally {
    /// The answer to the row that waits for the one wanted.
    shown: String,
    /// How many rows there were.
    rows: u64,
    /// How many of them differed.
    differ: u64,
}

fn is_same(a: &str, b: &str) -> bool {
    a.split_whitespace().eq(b.split_whitespace())
}

fn compare<R: Print>(rt: &R, tally: &mut Tally, wanted: &str) -> io::Result<()> {
    tally.rows = tally.rows.saturating_add(1);
    if is_same(tally.shown.as_str(), wanted) {
        return Ok(());
    }
    tally.differ = tally.differ.saturating_add(1);
    println!(rt; "wanted {wanted}")?;
    let shown = tally.shown.as_str();
    println!(rt; "got    {shown}")
}

fn take_line<R: Files + AllocGlobal + Print + Threads + Sync>(
    rt: &R,
    stage: Stage,
    tally: &mut Tally,
    line: &str,
) -> io::Result<()> {
    if let Some(text) = line
        .strip_prefix("text «")
        .and_then(|rest| rest.strip_suffix("»"))
    {
        tally.shown = answer(rt, stage, &unescaped(rt.alloc(), text.as_bytes())?)?;
    } else if let Some(name) = line.strip_prefix("file ") {
        tally.shown = answer(rt, stage, &fs::read(rt, name)?)?;
    } else if let Some(wanted) = line.strip_prefix("want ") {
        return compare(rt, tally, wanted);
    } else if let Some(name) = line.strip_prefix("want_file ") {
        let wanted = fs::read_to_string(rt, name)?;
        return compare(rt, tally, wanted.as_str());
    }
    Ok(())
}

/// Goes over a table, and prints what differs and how many rows there are.
pub(crate) fn go_over<R: Files + AllocGlobal + Print + Threads + Sync>(
    rt: &R,
    stage: Stage,
    name: &str,
) -> io::Result<()> {
    let text = fs::read_to_string(rt, name)?;
    let mut tally = Tally {
        shown: String::new(rt.alloc()),
        rows: 0,
        differ: 0,
    };
    for line in text.lines() {
        take_line(rt, stage, &mut tally, line)?;
    }
    let Tally { rows, differ, .. } = tally;
    println!(rt; "{name}: {rows} rows, {differ} differ")
}
