//! Files of rows, a line each.
use crate::fields::{Field, fields_of, text_of};
use crate::stop::Stop;
use crate::{hashes, sets, specs, values, versions};
use std::alloc::Global;
use std::{fs, io};

/// How many rows a file has, and how many of them differ or are none.
#[derive(Clone, Copy)]
struct Counts {
    rows: u64,
    differing: u64,
}

/// What a call answers.
fn answer_of(alloc: Global, call: &str, args: &[Field]) -> Result<String, Stop> {
    match call.split_once('.') {
        Some(("version", name)) => versions::answer(alloc, name, args),
        Some(("set", name)) => sets::answer(alloc, name, args),
        Some(("values", name)) => values::answer(alloc, name, args),
        Some(("hash", name)) => hashes::answer(alloc, name, args),
        Some((kind, name)) => specs::answer(alloc, kind, name, args),
        None => Err(Stop::NoRow),
    }
}

/// What is got for a row.
fn got_for(alloc: Global, row: &str) -> Result<String, Stop> {
    let fields = fields_of(alloc, row.as_bytes())?;
    match fields.as_slice() {
        [call, args @ ..] => answer_of(alloc, text_of(call)?, args),
        [] => Err(Stop::NoRow),
    }
}

/// Says a row that differs, and what was got.
fn tell(rt: &HostRuntime, counts: &mut Counts, line: &str, got: &str) -> io::Result<()> {
    counts.differing = counts.differing.saturating_add(1);
    println!(rt; "{line}")?;
    println!(rt; "  got {got}")
}

/// Compares a line. One that is empty or begins with `#` is passed over.
fn take_line(rt: &HostRuntime, counts: &mut Counts, line: &str) -> io::Result<()> {
    if line.is_empty() || line.starts_with('#') {
        return Ok(());
    }
    counts.rows = counts.rows.saturating_add(1);
    let (row, wanted) = line.split_once(" -> ").unwrap_or((line, ""));
    match got_for(rt.alloc(), row) {
        Ok(got) if got.as_str() == wanted => Ok(()),
        Ok(got) => tell(rt, counts, line, got.as_str()),
        Err(stop) => tell(rt, counts, line, stop.text()),
    }
}

/// Compares the rows of a file, and says which differ. Whether there were rows, and none differs.
pub(crate) fn go_over(rt: &HostRuntime, path: &str) -> io::Result<bool> {
    let Ok(text) = fs::read_to_string(rt, path) else {
        println!(rt; "{path}: it cannot be read")?;
        return Ok(false);
    };
    let mut counts = Counts {
        rows: 0,
        differing: 0,
    };
    for line in text.lines() {
        take_line(rt, &mut counts, line)?;
    }
    let Counts { rows, differing } = counts;
    println!(rt; "{path}: {rows} rows, {differing} differ")?;
    Ok(rows > 0 && differing == 0)
}
