//! A search that goes on over more clauses, with a log anew.
ghost use Rattle.std.specs.Prelude.{◌≡◌, true, OnOk};
ghost use Rattle.clause_store.specs.Lits.{AllBelow};
ghost use Rattle.clause_watch.specs.Trails.{decisions};
ghost use Rattle.clause_solver.specs.Searches.{IsSearch, BeginsAnew};

use crate::choice::backtrack;
use crate::search::Search;
use clause_store::{ClauseList, Lit};
use clause_watch::Watch;
use proof_log::{Line, Log};
use std::alloc::{AllocError, Global};
use std::mem;

/// Whether each literal is over so many variables.
fn are_below(lits: &[Lit], vars: usize) -> bool
    ensures { result ≡ true → AllBelow vars lits.now }
{
    for lit in lits {
        if lit.var.0 as usize >= vars {
            return false;
        }
    }
    true
}

/// Adds the clauses of a list from a place on, below another, as far as they are over the
/// variables.
fn add_range(
    alloc: Global,
    watch: &mut Watch,
    clauses: &ClauseList,
    from: u64,
    to: u64,
) -> Result<(), AllocError>
    requires { decisions watch.old.placed ≡ 0 }
    ensures { OnOk result (watch.new.vars ≡ watch.old.vars) }
{
    for place in from..to {
        if let Some(clause) = clauses.get(alloc, place + 1)? {
            if are_below(clause.lits(), watch.vars()) {
                watch.add(&clause)?;
            }
        }
    }
    Ok(())
}

impl Search {
    /// From now on the clauses of a list from a place on, below another, are known, too. The log
    /// begins anew over all that is known, and no bit is settled in it; the log so far comes back.
    pub fn begin_anew(
        &mut self,
        clauses: &ClauseList,
        from: u64,
        to: u64,
    ) -> Result<Log, AllocError>
        requires { IsSearch self.old }
        ensures { OnOk result (BeginsAnew self.old self.new) }
    {
        backtrack(&mut self.watch, &mut self.heap, 0);
        add_range(self.alloc, &mut self.watch, clauses, from, to)?;
        let known = self.watch.next_id() - 1;
        let mut log = Log::new(self.alloc);
        log.push(Line::Header {
            vars: self.watch.vars() as u64,
            clauses: known,
            bits: self.bits,
        })?;
        self.inputs = known as usize;
        self.given = Vec::new(self.alloc);
        self.learnt = 0;
        Ok(mem::replace(&mut self.log, log))
    }

    /// The log.
    pub fn into_log(self) -> Log
        ensures { result ≡ self.log }
    {
        let Search {
            log,
            alloc: _,
            watch: _,
            inputs: _,
            bits: _,
            given: _,
            learnt: _,
            model: _,
            seen: _,
            heap: _,
            restarts: _,
            first: _,
        } = self;
        log
    }
}
