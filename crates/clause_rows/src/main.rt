//! Answers rows of literals: for each line, what a call answers and the clauses that it adds.
//!
//! A line is a command, how many variables there are before, and its words; a literal is a number
//! from 1 on, or its negative, as in DIMACS. The commands stand at `sums::ask`,
//! `formulas::ask`, `vectors::ask` and `networks::ask`. An answer is the literals or the truth
//! values that the call gave, `none` where it gave none, `;`, how many variables there are now,
//! `;`, and the clauses, each ended by 0, with its demand before it where it has one: `4 ; 4 ; 1 -4
//! 0 2 -4 0`. A line that asks for what no call takes is answered by `no`.
#![tactic(auto)]

mod answer;
mod formulas;
mod input;
mod networks;
mod sums;
mod vectors;

use answer::{Answer, text_of};
use clause_store::ClauseList;
use std::alloc::{AllocError, Global};

fn main(rt: HostRuntime) -> anyhow::Result<()> {
    for line in rt.lines(rt.alloc()) {
        let text = answered(rt.alloc(), line?.as_str())?;
        println!(rt; "{text}")?;
    }
    Ok(())
}

// The answer to a line.
fn answered(alloc: Global, line: &str) -> Result<String, AllocError> {
    let words: Vec<&str> = line.split_whitespace().collect(alloc)?;
    let mut clauses = ClauseList::new(alloc);
    let answer = match words.as_slice() {
        [command, vars, rest @ ..] => {
            input::add_vars(&mut clauses, input::count_of(vars))?;
            ask(alloc, &mut clauses, command, rest)?
        }
        _ => None,
    };
    text_of(alloc, &answer, &clauses)
}

// What the command's call answers: None where there is no such command, or a word is wrong.
fn ask(
    alloc: Global,
    clauses: &mut ClauseList,
    command: &str,
    words: &[&str],
) -> Result<Option<Answer>, AllocError> {
    match command {
        "define" | "literal" | "each" | "assert" | "demand" | "demands" => formulas::ask(
            alloc, clauses, command, words,
        ),
        "totals" | "spell" => vectors::ask(alloc, clauses, command, words),
        "levels" => networks::ask(alloc, clauses, words),
        _ => sums::ask(alloc, clauses, command, words),
    }
}
