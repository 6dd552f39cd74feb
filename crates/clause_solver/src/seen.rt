//! Variables that an analysis has seen, and the list of them by which they are forgotten.
ghost use Rattle.std.specs.Prelude.{◌≡◌, ℕ, ◌<◌, ◌≤◌, true, false, length, replicate, slice_set, IfOk, OnOk};
ghost use Rattle.clause_store.specs.Lits.{AllBelow, SameLits};
ghost use Rattle.clause_watch.specs.Watches.{IsWatch};
ghost use Rattle.clause_solver.specs.Seen.{seen_at, AreSeen, AreClear, AreListed, IsFalseLit, IsVarAt, IsLastSeen, falsified};

use crate::variable_heap::VariableHeap;
use clause_store::{Lit, Var};
use clause_watch::{Code, Watch};
use std::alloc::{AllocError, Global};
use std::marker::Model;

/// Which variables an analysis has seen.
#[derive(Drop)]
pub struct Seen {
    /// Whether each variable is seen.
    table: Vec<bool>,
    /// The seen variables, and others that were.
    listed: Vec<usize>,
}

impl Model for Seen {
    ghost use Rattle.std.specs.Prelude.{Bool, List};

    ghost Value = { List Bool };

    ghost use Rattle.clause_solver.specs.Seen.{AreListed};

    ghost view = { λ m. m.table.items };

    ghost invariant = { λ m. AreListed m.table.items m.listed.items };
}

impl Seen {
    /// None of so many variables is seen.
    pub fn new(alloc: Global, vars: usize) -> Result<Seen, AllocError>
        ensures { IfOk result (λ m. m ≡ replicate vars false) }
    {
        let table = vec![in alloc; false; vars]?;
        let listed = Vec::new(alloc);
        Ok(Seen { table, listed })
    }

    /// Whether a variable is seen.
    pub fn has(&self, var: usize) -> bool
        requires { var < length self.now }
        ensures { result ≡ seen_at self.now var }
    {
        self.table[var]
    }

    /// Sees a variable, and bumps it if it was not seen.
    fn see(&mut self, heap: &mut VariableHeap, var: usize) -> Result<(), AllocError>
        requires { var < length self.old }
        ensures ok { OnOk result (self.new ≡ slice_set self.old var true) }
        ensures same { length self.new ≡ length self.old }
    {
        if self.table[var] {
            return Ok(());
        }
        self.listed.push(var)?;
        self.table[var] = true;
        heap.bump(var);
        Ok(())
    }

    /// Sees the variables of a clause; those that were not seen are bumped.
    pub fn see_all(&mut self, heap: &mut VariableHeap, lits: &[Code]) -> Result<(), AllocError>
        requires { AllBelow (length self.old) lits.now }
        ensures is_seen { OnOk result (AreSeen self.old self.new lits.now) }
        ensures same { length self.new ≡ length self.old }
    {
        for code in lits {
            self.see(heap, code.lit().var.0 as usize)?;
        }
        Ok(())
    }

    /// Forgets a variable.
    pub fn forget(&mut self, var: usize)
        requires { var < length self.old }
        ensures { self.new ≡ slice_set self.old var false }
    {
        self.table[var] = false;
    }

    /// Forgets all variables.
    pub fn clear(&mut self)
        ensures clear { AreClear self.new }
        ensures same { length self.new ≡ length self.old }
    {
        while let Some(var) = self.listed.pop() {
            self.table[var] = false;
        }
    }

    /// The seen variables, in the order in which they were seen, and others that were.
    fn listed(&self) -> &[usize]
        ensures { AreListed self.now result.now }
    {
        self.listed.as_slice()
    }

    /// The false literal of a variable, if it is seen and has a value.
    fn false_lit(&self, watch: &Watch, var: usize) -> Option<Lit>
        requires below { var < length self.now }
        requires in_range { length self.now ≡ watch.now.vars }
        ensures { IsFalseLit (seen_at self.now) watch.now.placed var result }
    {
        if !self.has(var) {
            return None;
        }
        let var = Var(var as u64);
        match watch.value(var) {
            Some(value) => Some(Lit {
                var,
                positive: !value,
            }),
            None => None,
        }
    }

    /// The false literals of the seen variables that have a value.
    pub fn false_lits(&self, alloc: Global, watch: &Watch) -> Result<Vec<Lit>, AllocError>
        requires right { IsWatch watch.now.vars watch.now.clauses watch.now.placed }
        requires in_range { length self.now ≡ watch.now.vars }
        ensures { IfOk result (λ lits. SameLits lits.items
            (falsified (seen_at self.now) watch.now.placed)) }
    {
        let mut lits = Vec::new(alloc);
        for var in self.listed() {
            if let Some(lit) = self.false_lit(watch, *var) {
                lits.push(lit)?;
            }
        }
        Ok(lits)
    }
}

/// The variable of a place of the trail. Its cause, that lies anywhere in memory, is not looked at.
fn var_at(watch: &Watch, at: usize) -> usize
    requires { at < length watch.now.placed }
    ensures { IsVarAt watch.now.placed at result }
{
    watch.trail()[at].var.0 as usize
}

/// The last place below an end whose variable is seen.
pub fn last_seen(seen: &Seen, watch: &Watch, end: usize) -> Option<usize>
    requires right { IsWatch watch.now.vars watch.now.clauses watch.now.placed }
    requires end { end ≤ length watch.now.placed }
    requires in_range { length seen.now ≡ watch.now.vars }
    ensures { IsLastSeen (seen_at seen.now) watch.now.placed end result }
{
    let mut at = end;
    while at > 0 {
        at -= 1;
        if seen.has(var_at(watch, at)) {
            return Some(at);
        }
    }
    None
}
