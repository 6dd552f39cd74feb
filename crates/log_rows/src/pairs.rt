//! `pairs COUNT LIT`: so many clauses `-1 2`, `-3 4` and so on, and one decision.
ghost use Rattle.std.specs.Prelude.{◌<◌};
ghost use Rattle.clause_store.specs.Lits.{var_of};

use crate::input::{add, lit_of, number_of};
use crate::output::push_line;
use crate::trails::go_on;
use clause_store::{ClauseList, Lit};
use clause_watch::Watch;
use std::alloc::{AllocError, Global};

/// What is true after the decision, how many clauses were looked at since, and who watches the
/// literal and its negation.
pub fn answer(alloc: Global, count: &str, word: &str) -> Result<Vec<u8>, AllocError> {
    let clauses = pairs(alloc, number_of(count))?;
    let mut watch = Watch::new(alloc, &clauses)?;
    let answered = match lit_of(word, watch.vars() as u64) {
        Some(lit) => answer_over(alloc, &mut watch, lit),
        None => Ok(Vec::new(alloc)),
    };
    drop(watch);
    answered
}

/// So many clauses, each over two variables of its own: the first is false, or the second is true.
fn pairs(alloc: Global, count: u64) -> Result<ClauseList, AllocError> {
    let mut clauses = ClauseList::new(alloc);
    for _ in 0..count {
        let first = clauses.new_var()?;
        let second = clauses.new_var()?;
        let lits = [
            Lit {
                var: first,
                positive: false,
            },
            Lit {
                var: second,
                positive: true,
            },
        ];
        add(alloc, &mut clauses, &lits)?;
    }
    Ok(clauses)
}

fn answer_over(alloc: Global, watch: &mut Watch, lit: Lit) -> Result<Vec<u8>, AllocError> {
    let mut text = Vec::new(alloc);
    let _ = watch.propagate()?;
    let before = watch.visits();
    go_on(alloc, &mut text, watch, lit)?;
    let since = watch.visits().saturating_sub(before);
    let line = format!(in alloc; "visits {since}")?;
    push_line(&mut text, line.as_str())?;
    if (lit.var.0 as usize) < watch.vars() {
        say_watchers(alloc, &mut text, watch, lit)?;
        say_watchers(alloc, &mut text, watch, lit.negated())?;
    }
    Ok(text)
}

fn say_watchers(
    alloc: Global,
    text: &mut Vec<u8>,
    watch: &Watch,
    lit: Lit,
) -> Result<(), AllocError>
    requires { var_of lit < watch.now.vars }
{
    text.extend_from_slice(b"watchers")?;
    for id in watch.watchers(alloc, lit)?.iter() {
        let word = format!(in alloc; " {id}")?;
        text.extend_from_slice(word.as_bytes())?;
    }
    push_line(text, "")
}
