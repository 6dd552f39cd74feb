//! A solver: clauses, bits settled one after another, and the log of it all.
ghost use Rattle.std.specs.Prelude.{◌≡◌, ◌<◌, ◌≤◌, length, IfOk, OnOk, OnErr, IsErr, true, false};
ghost use Rattle.clause_store.specs.Lits.{var_of};
ghost use Rattle.proof_log.specs.Lines.{IsOpen, learnt_in};
ghost use Rattle.proof_log.specs.Known.{AllClauses, AllOver};
ghost use Rattle.clause_solver.specs.Solvers.{IsLogOf, Answers, Ends, Fixes, IsAnew, IsInOrder, start_of};

use crate::Outcome;
use crate::choice::prefer_false;
use crate::restarts::Restarts;
use crate::search::Search;
use crate::seen::Seen;
use crate::variable_heap::VariableHeap;
use clause_store::{ClauseList, Lit};
use clause_watch::Watch;
use plain_data::List;
use proof_log::{Line, Log};
use std::alloc::{AllocError, Global};
use std::marker::Model;

/// A search for models of a list of clauses, whose bits are settled from the first on.
///
/// ```text
///          fix(next bit), solve: Model, solve(next bit): Refuted
///                            +------+
///                            v      |
/// new -----------------> the log is open ----- solve: Spent ---------------> the log has ended
///                            |          +---- solve(no bit): Refuted ------> the log has ended
///                            +--- want of memory in any call --> failed: every call answers so
/// ```
///
/// `fix` and `solve` require an open log (`open_log`), the next bit (`next`, `in_order`), literals
/// over the variables (`in_range`), and a budget that is not below what was learnt (`in_budget`).
/// `decide_first`, `prefer_false`, `log`, `learnt` and `model` may be called in any state; a failed
/// solver promises of its log the lines alone.
#[derive(Drop)]
pub struct Solver {
    /// The search, whose invariant holds unless memory ran out.
    search: Search,
    /// Whether memory ran out, or a call is under way.
    failed: bool,
}

impl Model for Solver {
    ghost use Rattle.std.specs.Prelude.{◌≡◌, false};
    ghost use Rattle.clause_solver.specs.Solvers.{SolverValue};

    ghost Value = { SolverValue };

    ghost use Rattle.clause_solver.specs.Searches.{value_of, IsSearch};

    ghost view = { λ s. value_of s.failed s.search };

    ghost invariant = { λ s. s.failed ≡ false → IsSearch s.search };
}

impl Solver {
    /// The clauses of a list, and so many bits, none settled. The log begins with its Header.
    pub fn new(alloc: Global, clauses: &ClauseList, bits: u64) -> Result<Solver, AllocError>
        ensures { IfOk result (λ s. s ≡ start_of clauses.now bits) }
    {
        let watch = Watch::new(alloc, clauses)?;
        let seen = Seen::new(alloc, watch.vars())?;
        let heap = VariableHeap::new(alloc, watch.vars())?;
        let mut log = Log::new(alloc);
        log.push(Line::Header {
            vars: clauses.vars(),
            clauses: clauses.len(),
            bits,
        })?;
        Ok(Solver {
            search: Search {
                alloc,
                watch,
                log,
                inputs: clauses.len() as usize,
                bits,
                given: Vec::new(alloc),
                learnt: 0,
                model: Vec::new(alloc),
                seen,
                heap,
                restarts: Restarts::new(),
                first: List::new(alloc),
            },
            failed: false,
        })
    }

    /// From now on these literals are decided before all others, each at false, the first of them
    /// first.
    ///
    /// What is answered does not rest on it, but which model is found may. A literal whose variable
    /// is none of the list's is passed over.
    pub fn decide_first(&mut self, lits: List<Lit>)
        ensures { self.new ≡ self.old }
    {
        self.search.first = lits;
    }

    /// From now on these literals are decided soon, each at false, unless what is learnt speaks
    /// against it.
    ///
    /// What is answered does not rest on it, but which model is found may. A literal whose variable
    /// is none of the list's is passed over.
    pub fn prefer_false(&mut self, lits: &[Lit])
        ensures { self.new ≡ self.old }
    {
        prefer_false(&mut self.search.watch, &mut self.search.heap, lits);
    }

    /// Settles the next bit at 0: the negation of its literal is known from now on, and the log
    /// gets a Zero line.
    pub fn fix(&mut self, bit: u64, lit: Lit) -> Result<(), AllocError>
        requires open_log { IsOpen self.old.lines }
        requires next { bit ≡ length self.old.given }
        requires in_range { var_of lit < self.old.vars }
        ensures ok { OnOk result (Fixes self.old self.new bit lit) }
        ensures open_log { OnOk result (IsOpen self.new.lines) }
        ensures err { OnErr result (self.new.failed ≡ true) }
        ensures failed { self.old.failed ≡ true → IsErr result }
    {
        if self.failed {
            return Err(AllocError);
        }
        self.failed = true;
        self.search.fix(bit, lit)?;
        self.failed = false;
        Ok(())
    }

    /// Looks for a model in which the assumed literal of the next bit is false.
    ///
    /// `Model`: `model` meets all known clauses and the assumption. `Refuted`: the log's last line
    /// settles the bit at 1, or without assumption derives the empty clause. `Spent`: one clause
    /// more than the budget was learnt, and the log's last line says so. The lines before it are
    /// the old ones and learnt ones.
    pub fn solve(
        &mut self,
        assumption: Option<(u64, Lit)>,
        budget: u64,
    ) -> Result<Outcome, AllocError>
        requires open_log { IsOpen self.old.lines }
        requires in_budget { learnt_in self.old.lines ≤ budget }
        requires in_order { IsInOrder self.old assumption }
        ensures answers { IfOk result (Answers self.old self.new assumption budget) }
        ensures log { OnOk result (IsLogOf self.new) }
        ensures in_range { OnOk result (AllOver self.new.vars self.new.known) }
        ensures ok { OnOk result (self.new.failed ≡ false) }
        ensures err { OnErr result (self.new.failed ≡ true) }
        ensures failed { self.old.failed ≡ true → IsErr result }
    {
        if self.failed {
            return Err(AllocError);
        }
        self.failed = true;
        let outcome = self.search.run(assumption, budget)?;
        let _ = self.search.watch.depth();
        self.failed = false;
        Ok(outcome)
    }

    /// The same, where a model gives a value to each variable below the reach alone. It meets all
    /// known clauses if these are all variables; nothing is promised of it else.
    pub fn solve_within(
        &mut self,
        assumption: Option<(u64, Lit)>,
        budget: u64,
        reach: usize,
    ) -> Result<Outcome, AllocError>
        requires open_log { IsOpen self.old.lines }
        requires in_budget { learnt_in self.old.lines ≤ budget }
        requires in_order { IsInOrder self.old assumption }
        ensures ends { IfOk result (Ends reach self.old self.new assumption budget) }
        ensures ok { OnOk result (self.new.failed ≡ false) }
        ensures err { OnErr result (self.new.failed ≡ true) }
        ensures failed { self.old.failed ≡ true → IsErr result }
    {
        if self.failed {
            return Err(AllocError);
        }
        self.failed = true;
        let outcome = self.search.run_within(assumption, budget, reach)?;
        self.failed = false;
        Ok(outcome)
    }

    /// From now on the clauses of a list from a place on, below another, are known, too. The log
    /// begins anew over all that is known, with the ids that it has, and no bit is settled in it;
    /// the log so far comes back. A clause that is not over the variables is passed over.
    pub fn begin_anew(
        &mut self,
        clauses: &ClauseList,
        from: u64,
        to: u64,
    ) -> Result<Log, AllocError>
        ensures anew { OnOk result (IsAnew self.old self.new) }
        ensures ok { OnOk result (self.new.failed ≡ false) }
        ensures err { OnErr result (self.new.failed ≡ true) }
        ensures failed { self.old.failed ≡ true → IsErr result }
    {
        if self.failed {
            return Err(AllocError);
        }
        self.failed = true;
        let log = self.search.begin_anew(clauses, from, to)?;
        self.failed = false;
        Ok(log)
    }

    /// The variable of a literal is next decided so that the literal is true, unless it had another
    /// value since. What is answered does not rest on it.
    pub fn expect(&mut self, lit: Lit)
        ensures { self.new ≡ self.old }
    {
        self.search.heap.reinsert(lit.var.0 as usize, lit.positive);
    }

    /// How many bits are settled.
    pub fn settled(&self) -> u64
        ensures { result ≡ length self.now.given }
    {
        self.search.given.len() as u64
    }

    /// How many variables there are.
    pub fn vars(&self) -> usize
        ensures { result ≡ self.now.vars }
    {
        self.search.watch.vars()
    }

    /// The last model, empty before the first.
    pub fn model(&self) -> &[bool]
        ensures { result.now ≡ self.now.model }
    {
        self.search.model.as_slice()
    }

    /// How many clauses were learnt: the Learnt lines of the log.
    pub fn learnt(&self) -> u64
        ensures { self.now.failed ≡ false → result ≡ learnt_in self.now.lines }
    {
        self.search.learnt
    }

    /// The log so far.
    pub fn log(&self) -> &Log
        ensures lines { result.now ≡ self.now.lines }
        ensures sound { self.now.failed ≡ false → IsLogOf self.now }
        ensures in_range { AllOver self.now.vars self.now.known }
        ensures in_order { AllClauses self.now.known }
    {
        let _ = self.search.watch.depth();
        &self.search.log
    }

    /// The log, and the solver is gone.
    pub fn into_log(self) -> Log
        ensures lines { result ≡ self.lines }
        ensures sound { self.failed ≡ false → IsLogOf self }
        ensures in_range { AllOver self.vars self.known }
    {
        let _ = self.search.watch.depth();
        let Solver { search, failed: _ } = self;
        search.into_log()
    }
}
