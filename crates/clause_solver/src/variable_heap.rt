//! A binary heap of the variables that wait, by activity. Those that were never bumped need no
//! place in it.
ghost use Rattle.std.specs.Prelude.{◌≡◌, ◌+◌, ◌<◌, ◌≤◌, length, false, slice_set, slice_index_or, IfOk, IfSome, IfNone};
ghost use Rattle.clause_solver.specs.Heaps.{AllUnder};
ghost use Rattle.clause_solver.specs.HeapValues.{untouched};

use std::alloc::{AllocError, Global};
use std::marker::Model;

/// Beyond this all activities are made smaller.
const HIGH: u64 = 1 << 62;

/// By how many bits.
const SHIFT: u32 = 40;

/// What a bump counts at first.
const FIRST_INCREMENT: u64 = 1 << 20;

/// Variables that wait for a value, the most active one first, and the last value of each.
///
/// Only variables that were bumped wait here. The others go by their numbers, so they are found
/// without it, from `low` on.
#[derive(Drop)]
pub struct VariableHeap {
    /// All variables: first those that wait, as a binary heap, then the others.
    heap: Vec<usize>,
    /// The place of each variable in `heap`.
    places: Vec<usize>,
    /// How many variables wait.
    waiting: usize,
    /// How often each variable was bumped, where a late bump counts more.
    activities: Vec<u64>,
    /// What a bump counts.
    increment: u64,
    /// The last value of each variable, and false before the first.
    phases: Vec<bool>,
    /// No variable below it is without value unless it waits. (Not proved, and nothing rests on
    /// it.)
    low: usize,
}

impl Model for VariableHeap {
    ghost use Rattle.clause_solver.specs.HeapValues.{HeapValue};
    ghost use Rattle.std.specs.Prelude.{length};

    ghost Value = { HeapValue };

    ghost use Rattle.clause_solver.specs.Heaps.{IsHeap};

    ghost view = { λ o. record { vars = length o.heap.items; waiting = o.waiting; phases = o.phases.items } };

    ghost invariant = { λ o. IsHeap o.heap.items o.places.items o.waiting (length o.activities.items) (length o.phases.items) };
}

impl VariableHeap {
    /// So many variables, none of which waits, since none was bumped.
    pub fn new(alloc: Global, vars: usize) -> Result<VariableHeap, AllocError>
        ensures { IfOk result (λ o. o ≡ untouched vars) }
    {
        let heap = numbers(alloc, vars)?;
        let places = numbers(alloc, vars)?;
        let activities = vec![in alloc; 0; vars]?;
        let phases = vec![in alloc; false; vars]?;
        Ok(VariableHeap {
            heap,
            places,
            waiting: 0,
            activities,
            increment: FIRST_INCREMENT,
            phases,
            low: 0,
        })
    }

    /// Whether a variable goes before another: by activity, and the lower one where they have the
    /// same.
    fn is_before(&self, var: usize, other: usize) -> bool
        requires var { var < self.now.vars }
        requires other { other < self.now.vars }
    {
        let (a, b) = (self.activities[var], self.activities[other]);
        a > b || (a == b && var < other)
    }

    /// The variable at a place.
    fn var_at(&self, place: usize) -> usize
        requires { place < self.now.vars }
        ensures { result < self.now.vars }
    {
        self.heap[place]
    }

    /// The place of a variable.
    fn place_of(&self, var: usize) -> usize
        requires { var < self.now.vars }
        ensures { result < self.now.vars }
    {
        self.places[var]
    }

    /// Puts a variable at a place.
    fn put(&mut self, place: usize, var: usize)
        requires place { place < self.old.vars }
        requires var { var < self.old.vars }
        ensures { self.new ≡ self.old }
    {
        self.heap[place] = var;
        self.places[var] = place;
    }

    /// Puts a variable at a free place, or nearer to the front if it goes before those there.
    fn sift_up(&mut self, var: usize, from: usize)
        requires from { from < self.old.vars }
        requires var { var < self.old.vars }
        ensures { self.new ≡ self.old }
    {
        let mut at = from;
        while at > 0 {
            let above = (at - 1) / 2;
            let other = self.var_at(above);
            if !self.is_before(var, other) {
                break;
            }
            self.put(at, other);
            at = above;
        }
        self.put(at, var);
    }

    /// The place of the more active one of the two variables below a place.
    fn below(&self, at: usize) -> Option<usize>
        ensures within { IfSome result (λ k. k < self.now.waiting) }
        ensures in_range { IfSome result (λ k. k < self.now.vars) }
        ensures below { IfSome result (λ k. at < k) }
    {
        if at >= self.waiting / 2 {
            return None;
        }
        let left = 2 * at + 1;
        let right = left + 1;
        if right < self.waiting && self.is_before(self.var_at(right), self.var_at(left)) {
            Some(right)
        } else {
            Some(left)
        }
    }

    /// Puts a variable at a free place, or farther from the front if those below go before it.
    fn sift_down(&mut self, var: usize, from: usize)
        requires from { from < self.old.vars }
        requires var { var < self.old.vars }
        ensures { self.new ≡ self.old }
    {
        let mut at = from;
        while let Some(child) = self.below(at) {
            let other = self.var_at(child);
            if !self.is_before(other, var) {
                break;
            }
            self.put(at, other);
            at = child;
        }
        self.put(at, var);
    }

    /// The variable that comes next, which waits no longer.
    pub fn next(&mut self) -> Option<usize>
        ensures in_range { IfSome result (λ x. x < self.old.vars) }
        ensures taken { IfSome result
            (λ x. self.new ≡ record self.old { waiting = self.new.waiting }) }
        ensures fewer { IfSome result (λ x. self.new.waiting + 1 ≡ self.old.waiting) }
        ensures none { IfNone result (self.old.waiting ≡ 0) }
        ensures kept { IfNone result (self.new ≡ self.old) }
    {
        if self.waiting == 0 {
            return None;
        }
        let end = self.waiting - 1;
        let first = self.var_at(0);
        let last = self.var_at(end);
        self.waiting = end;
        self.put(end, first);
        if end > 0 {
            self.sift_down(last, 0);
        }
        Some(first)
    }

    /// A variable had this value, and waits again if it was ever bumped. One that is not there is
    /// passed over.
    pub fn reinsert(&mut self, var: usize, value: bool)
        ensures vars { self.new.vars ≡ self.old.vars }
        ensures waiting { self.old.waiting ≤ self.new.waiting }
        ensures phases { self.new.phases ≡ slice_set self.old.phases var value }
    {
        if var >= self.heap.len() {
            return;
        }
        self.phases[var] = value;
        if self.activities[var] == 0 {
            self.low = self.low.min(var);
            return;
        }
        let place = self.place_of(var);
        let end = self.waiting;
        if place < end {
            return;
        }
        let other = self.var_at(end);
        self.put(place, other);
        self.waiting = end + 1;
        self.sift_up(var, end);
    }

    /// A variable is bumped: it was part of a conflict. One that is not there is passed over.
    pub fn bump(&mut self, var: usize)
        ensures { self.new ≡ self.old }
    {
        if var >= self.heap.len() {
            return;
        }
        let activity = self.activities[var].saturating_add(self.increment);
        self.activities[var] = activity;
        if activity > HIGH {
            self.rescale();
        }
        let place = self.place_of(var);
        if place < self.waiting {
            self.sift_up(var, place);
        }
    }

    /// Earlier bumps count less from now on, by a twentieth: a later one counts more.
    pub fn decay(&mut self)
        ensures { self.new ≡ self.old }
    {
        self.increment = self.increment.saturating_add(self.increment / 19);
    }

    /// Makes all activities smaller, so that they stay within range.
    fn rescale(&mut self)
        ensures { self.new ≡ self.old }
    {
        for activity in self.activities.iter_mut() {
            *activity >>= SHIFT;
        }
        self.increment = (self.increment >> SHIFT).max(1);
    }

    /// From where on variables that were never bumped are looked for.
    pub fn low(&self) -> usize {
        self.low
    }

    /// They are looked for from this one on.
    pub fn start_at(&mut self, var: usize)
        ensures { self.new ≡ self.old }
    {
        self.low = var;
    }

    /// The last value of a variable; false before the first, and for one that is not there.
    pub fn phase(&self, var: usize) -> bool
        ensures { result ≡ slice_index_or self.now.phases var false }
    {
        if var < self.phases.len() {
            self.phases[var]
        } else {
            false
        }
    }
}

/// The numbers below a bound.
fn numbers(alloc: Global, end: usize) -> Result<Vec<usize>, AllocError>
    ensures len { IfOk result (λ xs. length xs.items ≡ end) }
    ensures under { IfOk result (λ xs. AllUnder end xs.items) }
{
    let mut numbers = Vec::new(alloc);
    for number in 0..end {
        numbers.push(number)?;
    }
    Ok(numbers)
}
