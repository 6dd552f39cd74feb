//! A table: its rows, one after the other.
//!
//! `recipe NAME: STATEMENT; STATEMENT` adds a recipe, `site LINE` a line of the site,
//! `graph ITEM..` makes the graph, and `new` forgets all. A row is a line `ask QUESTION`, or `over`
//! with what it is over and its questions, and then a line `= ANSWER`. Other lines are comments.

use crate::ask::answer;
use crate::over;
use plain_data::Word;
use recipe_reader::RecipeFile;
use std::alloc::{AllocError, Global};
use std::{fs, io};

/// What was met so far.
#[derive(Drop)]
struct Tally {
    files: Vec<RecipeFile>,
    site: String,
    graph: String,
    /// The answer to the row that waits for the one wanted.
    shown: String,
    rows: u64,
    differ: u64,
}

fn compare(rt: &HostRuntime, tally: &mut Tally, wanted: &str) -> io::Result<()> {
    tally.rows = tally.rows.saturating_add(1);
    let shown = tally.shown.as_str();
    if shown == wanted {
        return Ok(());
    }
    println!(rt; "wanted {wanted}")?;
    println!(rt; "got    {shown}")?;
    tally.differ = tally.differ.saturating_add(1);
    Ok(())
}

/// The file with these statements.
fn file_of(alloc: Global, name: &str, statements: &str) -> Result<RecipeFile, AllocError> {
    let mut text = String::new(alloc);
    text.push_str("class A(Package):\n")?;
    for statement in statements.split(';') {
        text.push_str("    ")?;
        text.push_str(statement.trim())?;
        text.push_str("\n")?;
    }
    Ok(RecipeFile {
        name: Word::new(alloc, name)?,
        bytes: text.into_bytes(),
    })
}

fn take_line(rt: &HostRuntime, tally: &mut Tally, line: &str) -> io::Result<()> {
    let alloc = rt.alloc();
    if let Some(wanted) = line.strip_prefix("= ") {
        return compare(rt, tally, wanted);
    }
    if line == "new" {
        tally.files = Vec::new(alloc);
        tally.site = String::new(alloc);
        tally.graph = String::new(alloc);
    } else if let Some(recipe) = line.strip_prefix("recipe ") {
        let (name, statements) = recipe.split_once(": ").unwrap_or((recipe, "pass"));
        tally.files.push(file_of(alloc, name, statements)?)?;
    } else if let Some(line) = line.strip_prefix("site ") {
        tally.site.push_str(line)?;
        tally.site.push_str("\n")?;
    } else if let Some(items) = line.strip_prefix("graph ") {
        tally.graph = String::from_str(alloc, items)?;
    } else if let Some(made) = line.strip_prefix("over ") {
        tally.shown = over::answer(alloc, made)?;
    } else if let Some(question) = line.strip_prefix("ask ") {
        tally.shown = answer(
            alloc,
            tally.files.as_slice(),
            tally.site.as_str(),
            tally.graph.as_str(),
            question,
        )?;
    }
    Ok(())
}

/// Goes over a table, and prints what differs and how many rows there are.
pub(crate) fn go_over(rt: &HostRuntime, name: &str) -> io::Result<()> {
    let text = fs::read_to_string(rt, name)?;
    let mut tally = Tally {
        files: Vec::new(rt.alloc()),
        site: String::new(rt.alloc()),
        graph: String::new(rt.alloc()),
        shown: String::new(rt.alloc()),
        rows: 0,
        differ: 0,
    };
    for line in text.lines() {
        take_line(rt, &mut tally, line)?;
    }
    let Tally { rows, differ, .. } = tally;
    println!(rt; "{name}: {rows} rows, {differ} differ")
}
