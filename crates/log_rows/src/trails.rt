//! `watch VARS DECISIONS.. 0 CLAUSES..`: decisions and what follows from them.
use crate::input::{clauses_of, lits_of, number_of};
use crate::output::{push_line, push_lits};
use clause_store::Lit;
use clause_watch::Watch;
use std::alloc::{AllocError, Global};

/// What is true after each decision in turn, up to the first false clause, and what is left after
/// the way back.
pub fn answer(alloc: Global, vars: &str, words: &[&str]) -> Result<Vec<u8>, AllocError> {
    let (decisions, rest) = lits_of(alloc, number_of(vars), words)?;
    let clauses = clauses_of(alloc, number_of(vars), rest)?;
    let mut watch = Watch::new(alloc, &clauses)?;
    let answered = answer_over(alloc, &mut watch, decisions.as_slice());
    drop(watch);
    answered
}

fn answer_over(alloc: Global, watch: &mut Watch, decisions: &[Lit]) -> Result<Vec<u8>, AllocError> {
    let mut text = Vec::new(alloc);
    for lit in decisions {
        if !go_on(alloc, &mut text, watch, *lit)? {
            break;
        }
    }
    watch.undo(0);
    push_lits(alloc, &mut text, watch.trail())?;
    push_line(&mut text, "")?;
    Ok(text)
}

/// Propagates, decides if nothing is false, and propagates again; says the trail with levels and
/// reasons, and whether no clause is false.
pub fn go_on(
    alloc: Global,
    text: &mut Vec<u8>,
    watch: &mut Watch,
    lit: Lit,
) -> Result<bool, AllocError> {
    if let Some(id) = watch.propagate()? {
        return say_false(alloc, text, id);
    }
    if (lit.var.0 as usize) < watch.vars() {
        match watch.value(lit.var) {
            None => watch.decide(lit)?,
            Some(_) => {}
        }
    }
    if let Some(id) = watch.propagate()? {
        return say_false(alloc, text, id);
    }
    say_trail(alloc, text, watch)?;
    Ok(true)
}

fn say_false(alloc: Global, text: &mut Vec<u8>, id: u64) -> Result<bool, AllocError> {
    let line = format!(in alloc; "false {id}")?;
    push_line(text, line.as_str())?;
    Ok(false)
}

/// Each true literal with its level and the id of its reason, or 0.
fn say_trail(alloc: Global, text: &mut Vec<u8>, watch: &Watch) -> Result<(), AllocError> {
    for at in 0..watch.trail().len() {
        let placed = watch.at(at);
        push_lits(alloc, text, &[placed.lit])?;
        let reason = placed.reason.unwrap_or(0);
        let cause = format!(in alloc; "@{},{reason}", placed.level)?;
        text.extend_from_slice(cause.as_bytes())?;
    }
    push_line(text, "")
}
