//! Which literal is decided next. No proof rests on the choice: any variable without value will do.
ghost use Rattle.std.specs.Prelude.{◌≡◌, ℕ, ◌<◌, ◌≤◌, min, Some, IfSome, IfNone, IfOk, false, true, length, unwrap_or};
ghost use Rattle.std.specs.List.{find};
ghost use Rattle.std.specs.Option.{option_map};
ghost use Rattle.clause_store.specs.Lits.{var_of, negation};
ghost use Rattle.proof_log.specs.Known.{has_var};
ghost use Rattle.clause_watch.specs.Trails.{lits_of, value_in, decisions};
ghost use Rattle.clause_watch.specs.Watches.{backtrack};
ghost use Rattle.clause_solver.specs.Seen.{seen_at};
ghost use Rattle.clause_solver.specs.Models.{HaveValues, is_open, IsModelOf};
ghost use Rattle.clause_solver.specs.Searches.{IsOver, IsAssumed, IsNext, OnlyLeaves, stated};

use crate::variable_heap::VariableHeap;
use clause_store::{Lit, Var};
use clause_watch::Watch;
use std::alloc::{AllocError, Global};

/// The most active variable of those that wait and have no value. Those before it wait no longer.
fn active(watch: &Watch, heap: &mut VariableHeap) -> Option<usize>
    ensures in_range { IfSome result (λ x. x < watch.now.vars) }
    ensures free { IfSome result (λ x. has_var (lits_of watch.now.placed) x ≡ false) }
{
    while let Some(x) = heap.next() {
        if x < watch.vars() {
            match watch.value(Var(x as u64)) {
                Some(_) => {}
                None => return Some(x),
            }
        }
    }
    None
}

/// The lowest variable without value below the reach, from the heap's low one on.
fn lowest(watch: &Watch, heap: &mut VariableHeap, reach: usize) -> Option<usize>
    ensures in_range { IfSome result (λ x. x < watch.now.vars) }
    ensures free { IfSome result (λ x. has_var (lits_of watch.now.placed) x ≡ false) }
{
    for x in heap.low()..watch.vars() {
        if x >= reach {
            return None;
        }
        match watch.value(Var(x as u64)) {
            Some(_) => {}
            None => {
                heap.start_at(x);
                return Some(x);
            }
        }
    }
    None
}

/// The most active variable of those that wait, and else the lowest one, that has no value.
fn soonest(watch: &Watch, heap: &mut VariableHeap, reach: usize) -> Option<usize>
    ensures in_range { IfSome result (λ x. x < watch.now.vars) }
    ensures free { IfSome result (λ x. has_var (lits_of watch.now.placed) x ≡ false) }
{
    match active(watch, heap) {
        Some(x) => Some(x),
        None => lowest(watch, heap, reach),
    }
}

/// The negation of the first of some literals that has no value.
fn negated_first(watch: &Watch, first: &[Lit]) -> Option<Lit>
    ensures in_range { IfSome result (λ l. var_of l < watch.now.vars) }
    ensures free { IfSome result (λ l. has_var (lits_of watch.now.placed) (var_of l) ≡ false) }
    ensures first { result ≡ option_map negation
        (find (is_open watch.now.placed watch.now.vars) first.now) }
{
    for lit in first {
        if (lit.var.0 as usize) < watch.vars() {
            match watch.value(lit.var) {
                Some(_) => {}
                None => return Some(lit.negated()),
            }
        }
    }
    None
}

/// The negation of the first of some literals without value; or else a variable without value, with
/// its last one: the most active of those that wait, or the lowest below the reach.
pub fn choose(watch: &Watch, heap: &mut VariableHeap, first: &[Lit], reach: usize) -> Option<Lit>
    ensures in_range { IfSome result (λ l. var_of l < watch.now.vars) }
    ensures free { IfSome result (λ l. has_var (lits_of watch.now.placed) (var_of l) ≡ false) }
    ensures none { IfNone result
        (watch.now.vars ≤ reach → HaveValues watch.now.placed watch.now.vars) }
    ensures first { IfSome (find (is_open watch.now.placed watch.now.vars) first.now)
        (λ l. result ≡ Some (negation l)) }
{
    if let Some(lit) = negated_first(watch, first) {
        return Some(lit);
    }
    if let Some(x) = soonest(watch, heap, reach) {
        let positive = heap.phase(x);
        return Some(Lit {
            var: Var(x as u64),
            positive,
        });
    }
    if reach < watch.vars() {
        return None;
    }
    for x in 0..watch.vars() {
        let var = Var(x as u64);
        match watch.value(var) {
            Some(_) => {}
            None => {
                let positive = heap.phase(x);
                return Some(Lit { var, positive });
            }
        }
    }
    None
}

/// What comes next where nothing is left to propagate.
pub enum Move {
    Decide(Lit),
    Refute,
    Finish,
}

/// The assumed literal is decided before all others, at false. The search is over where each
/// variable below the reach has a value.
pub fn next(
    watch: &Watch,
    heap: &mut VariableHeap,
    first: &[Lit],
    assumption: Option<(u64, Lit)>,
    reach: usize,
) -> Move
    requires in_range { IsOver watch.now.vars assumption }
    requires assumed { IsAssumed watch.now.placed assumption }
    ensures { IsNext watch.now.placed watch.now.vars reach assumption result }
{
    if let Some((_, lit)) = assumption {
        let _ = watch.depth();
        match watch.value(lit.var) {
            None => return Move::Decide(lit.negated()),
            Some(value) => {
                if value == lit.positive {
                    return Move::Refute;
                }
            }
        }
    }
    match choose(watch, heap, first, reach) {
        Some(lit) => Move::Decide(lit),
        None => Move::Finish,
    }
}

/// Whether a conflict leaves no decided literal but the assumed one.
pub fn is_closing(watch: &Watch, assumption: Option<(u64, Lit)>) -> bool
    requires in_range { IsOver watch.now.vars assumption }
    requires assumed { IsAssumed watch.now.placed assumption }
    ensures closed { result ≡ true → OnlyLeaves watch.now.placed (stated assumption) }
    ensures above { result ≡ false → 0 < decisions watch.now.placed }
{
    let depth = watch.depth();
    if depth == 0 {
        return true;
    }
    match assumption {
        Some((_, lit)) => depth == 1 && watch.reason(lit.var).is_none(),
        None => false,
    }
}

/// The variables whose level is above the given one wait again, those that got their value last
/// first.
fn reinsert_above(watch: &Watch, heap: &mut VariableHeap, level: u64) {
    let lits = watch.trail();
    for at in (watch.len_upto(level)..lits.len()).rev() {
        let lit = lits[at];
        heap.reinsert(lit.var.0 as usize, lit.positive);
    }
}

/// Backtracks to a level.
pub fn backtrack(watch: &mut Watch, heap: &mut VariableHeap, level: u64)
    ensures kept { watch.new ≡ backtrack watch.old level }
    ensures depth { decisions watch.new.placed ≡ min (decisions watch.old.placed) level }
{
    reinsert_above(watch, heap, level);
    watch.undo(level);
}

/// Backtracks to level 0. Each of these literals is decided soon, at false, unless what is learnt
/// speaks against it.
pub fn prefer_false(watch: &mut Watch, heap: &mut VariableHeap, lits: &[Lit])
    ensures { watch.new ≡ backtrack watch.old 0 }
{
    backtrack(watch, heap, 0);
    for lit in lits {
        let var = lit.var.0 as usize;
        heap.bump(var);
        heap.reinsert(var, !lit.positive);
    }
}

/// The values of all variables.
pub fn values_of(alloc: Global, watch: &Watch) -> Result<Vec<bool>, AllocError>
    ensures { IfOk result (λ model. IsModelOf watch.now.placed watch.now.vars model.items) }
{
    let mut model = Vec::new(alloc);
    for x in 0..watch.vars() {
        let value = watch.value(Var(x as u64)).unwrap_or(false);
        model.push(value)?;
    }
    Ok(model)
}
