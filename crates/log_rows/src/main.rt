//! Answers rows of clauses and of logs: for each line, what the calls of the search and of the
//! checkers answer.
//!
//! A line is a command and its words, where a literal is a number from 1 on, or its negative, and 0
//! ends a list. Each answer has a line of its own and then the log, if there is one; the answers
//! are told apart by a line `--`. The commands stand at the functions that answer them.
//! The answers in `stdout` come from the rules, never from what the crates answer.
#![tactic(auto)]

mod answers;
mod halves;
mod input;
mod least;
mod least_reasons;
mod log_row;
mod logs;
mod output;
mod pairs;
mod parts;
mod search_row;
mod steps;
mod trails;

use std::alloc::{AllocError, Global};
use std::io::Write;
use std::thread::Threads;

fn main(rt: HostRuntime) -> anyhow::Result<()> {
    let mut out = rt.stdout();
    for line in rt.lines(rt.alloc()) {
        let text = answer(&rt, rt.alloc(), line?.as_str())?;
        out.write_all(text.as_slice())?;
        out.write_all(b"--\n")?;
    }
    Ok(())
}

fn answer<R: Threads + Sync>(rt: &R, alloc: Global, line: &str) -> Result<Vec<u8>, AllocError> {
    let words: Vec<&str> = line.split_whitespace().collect(alloc)?;
    match words.as_slice() {
        ["search", budget, vars, rest @ ..] => least::answer(alloc, budget, vars, rest),
        ["trim", budget, vars, rest @ ..] => least::answer_trimmed(alloc, budget, vars, rest),
        ["numbers", budget, vars, rest @ ..] => least::answer_numbers(alloc, budget, vars, rest),
        ["within", budget, vars, rest @ ..] => least::answer_within(alloc, budget, vars, rest),
        ["log", piece, vars, rest @ ..] => logs::answer(alloc, piece, vars, rest),
        ["solve", budget, vars, rest @ ..] => steps::answer(alloc, budget, vars, rest),
        ["pairs", count, lit] => pairs::answer(alloc, count, lit),
        ["watch", vars, rest @ ..] => trails::answer(alloc, vars, rest),
        words => checked(rt, alloc, words),
    }
}

/// What the checkers and the explanations answer.
fn checked<R: Threads + Sync>(
    rt: &R,
    alloc: Global,
    words: &[&str],
) -> Result<Vec<u8>, AllocError> {
    let text = match words {
        ["check_log", values, vars, rest @ ..] => log_row::answer(rt, alloc, values, vars, rest)?,
        ["check_search", budget, vars, rest @ ..] => {
            search_row::answer(rt, alloc, budget, vars, rest)?
        }
        ["reasons", budget, vars, structure, rest @ ..] => {
            least_reasons::answer(alloc, budget, vars, structure, rest)?
        }
        ["is_least", budget, vars, structure, rest @ ..] => {
            least_reasons::answer_least(alloc, budget, vars, structure, rest)?
        }
        ["halves"] => halves::answer(rt, alloc)?,
        ["parts", budget, vars, rest @ ..] => parts::answer(rt, alloc, budget, vars, rest)?,
        _ => return Ok(Vec::new(alloc)),
    };
    let mut line = text.into_bytes();
    line.push(b'\n')?;
    Ok(line)
}
