//! Answers rows of verdicts and cost vectors: problems and graphs by lines, and what is asked of
//! them.
//!
//! Lines that make a problem: `recipe NAME LINE; LINE`, `settings JSON`,
//! `record NAME VERSION CHILD:KINDS..` with children `CHILD:KINDS:VIRTUAL,VIRTUAL` too,
//! `roots SPEC SPEC..`, and then `problem`, which puts them together and begins with the empty
//! graph.
//! Lines that make a graph: `node NAME VERSION ITEM..`, `edge PARENT CHILD KINDS` and
//! `edge PARENT CHILD KINDS VIRTUAL,VIRTUAL`, `provider VIRTUAL PACKAGE`, `name`, which names the
//! virtuals on the edges as where a lock file of the first version is read, `same`, which keeps
//! the problem and begins again with the empty graph.
//! Questions: `judge`, `judge for NUMBER..`, `vector`, and `names` for what edges name. A line that
//! is `#` and a space is repeated in the output; one that cannot be taken is answered by `no`.
//! It stands on `graph_judge` and `cost_vector`, and on readers. Nothing stands on it.
#![tactic(auto)]

mod ask;
mod case;
mod draft;
mod made;
mod parts;
mod read;

use crate::case::Case;
use std::thread::Threads;

// The case is the caller's, so that no early return drops it.
fn answer_lines<R: Input + Print + AllocGlobal + Threads + Sync>(
    rt: &R,
    case: &mut Case,
) -> anyhow::Result<()> {
    for line in rt.lines(rt.alloc()) {
        if let Some(text) = case.take_line(rt, rt.alloc(), line?.as_str())? {
            println!(rt; "{text}")?;
        }
    }
    Ok(())
}

fn main(rt: HostRuntime) -> anyhow::Result<()> {
    let mut case = Case::new(rt.alloc());
    let answered = answer_lines(&rt, &mut case);
    drop(case);
    answered
}
