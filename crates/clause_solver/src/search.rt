//! The search for a model, with its log: propagate, learn or decide, until it ends.
ghost use Rattle.std.specs.Prelude.{◌≡◌, ◌≢◌, ℕ, ◌+◌, ◌*◌, ◌<◌, ◌≤◌, [], ◌∷◌, ◌++◌, length, IfOk, OnOk, OnErr, IsErr, MatchOption, Some, None, true, false, MatchResult};
ghost use Rattle.clause_store.specs.Lits.{var_of, negation};
ghost use Rattle.clause_store.specs.Clauses.{clauses_of};
ghost use Rattle.proof_log.specs.Lines.{IsOpen, learnt_in};
ghost use Rattle.proof_log.specs.Derivations.{IsDerived};
ghost use Rattle.clause_watch.specs.Trails.{decisions, lits_of};
ghost use Rattle.clause_watch.specs.Watches.{IsWatch};
ghost use Rattle.clause_watch.specs.Reasons.{NamesFalse};
ghost use Rattle.clause_solver.specs.Solvers.{IsLogOf, Adds, Answers, IsInOrder, Refutes};
ghost use Rattle.clause_solver.specs.Learning.{IsKnown};
ghost use Rattle.clause_solver.specs.Searches.{value_of, IsSearch, IsReady, IsAssumed, IsTrueOn, Learns, Rests, IsClosed, IsFixed, IsStep, IsTurn, IsPlaceOf};
ghost use Rattle.proof_log.specs.Known.{has_var};
ghost use Rattle.proof_log.specs.Usefulness.{IsSettled};

use crate::Outcome;
use crate::analysis::{Learnt, analyze, refute};
use crate::choice::{Move, backtrack, is_closing, next, values_of};
use crate::restarts::Restarts;
use crate::seen::Seen;
use crate::variable_heap::VariableHeap;
use clause_store::{Clause, Lit, Var};
use clause_watch::Watch;
use plain_data::List;
use proof_log::{Line, Log};
use std::alloc::{AllocError, Global};

/// The parts of a solver.
#[derive(Drop)]
pub struct Search {
    pub alloc: Global,
    pub watch: Watch,
    pub log: Log,
    /// How many clauses there were at first.
    pub inputs: usize,
    /// How many bits there are.
    pub bits: u64,
    /// The literals of the bits settled so far.
    pub given: Vec<Lit>,
    /// How many clauses were learnt.
    pub learnt: u64,
    /// The last model.
    pub model: Vec<bool>,
    /// What the analysis has seen, nothing between two calls.
    pub seen: Seen,
    /// Which variable is decided next.
    pub heap: VariableHeap,
    /// When the search restarts.
    pub restarts: Restarts,
    /// What is decided before all else, at false.
    pub first: List<Lit>,
}

impl Search {
    /// Learns from a false clause above level 0, and backjumps, or restarts.
    fn learn(&mut self, conflict: u64) -> Result<(), AllocError>
        requires right { IsWatch self.old.watch.vars self.old.watch.clauses self.old.watch.placed }
        requires search { IsSearch self.old }
        requires open_log { IsOpen self.old.log }
        requires conflict { NamesFalse self.old.watch.placed self.old.watch.clauses conflict }
        requires above { 0 < decisions self.old.watch.placed }
        ensures { OnOk result (Learns self.old self.new) }
    {
        let Learnt {
            clause,
            chain,
            backjump,
        } = analyze(
            self.alloc,
            &self.watch,
            &mut self.seen,
            &mut self.heap,
            conflict,
        )?;
        self.heap.decay();
        let level = self.restarts.level(backjump);
        backtrack(&mut self.watch, &mut self.heap, level);
        let id = self.watch.next_id();
        self.watch.add(&clause)?;
        self.log.push(Line::Learnt { id, clause, chain })?;
        let _ = self.log.lines();
        self.learnt += 1;
        Ok(())
    }

    /// Ends the log, or settles the assumed bit, by a clause that is false up to a place.
    fn close(
        &mut self,
        assumption: Option<(u64, Lit)>,
        id: u64,
        end: usize,
    ) -> Result<(), AllocError>
        requires right { IsWatch self.old.watch.vars self.old.watch.clauses self.old.watch.placed }
        requires search { IsSearch self.old }
        requires open_log { IsOpen self.old.log }
        requires in_order { IsInOrder (value_of false self.old) assumption }
        requires known { IsKnown self.old.watch.clauses id }
        requires end { end ≤ length self.old.watch.placed }
        requires refutes { Rests self.old.watch id end assumption }
        ensures { OnOk result (IsClosed self.old self.new assumption) }
    {
        let chain = refute(
            self.alloc,
            &self.watch,
            &mut self.seen,
            &mut self.heap,
            id,
            end,
        )?;
        match assumption {
            None => {
                self.log.push(Line::Unsat { chain })?;
                Ok(())
            }
            Some((bit, lit)) => {
                backtrack(&mut self.watch, &mut self.heap, 0);
                let id = self.watch.next_id();
                let clause = Clause::single(self.alloc, lit)?;
                self.watch.add(&clause)?;
                self.log.push(Line::One { id, bit, chain })?;
                self.given.push(lit)?;
                Ok(())
            }
        }
    }

    /// Settles the assumed bit, whose literal is true without a decision.
    fn close_true(&mut self, assumption: Option<(u64, Lit)>) -> Result<(), AllocError>
        requires search { IsSearch self.old }
        requires open_log { IsOpen self.old.log }
        requires in_order { IsInOrder (value_of false self.old) assumption }
        requires assumed { IsAssumed self.old.watch.placed assumption }
        requires holds { IsTrueOn self.old.watch.placed assumption }
        ensures { OnOk result (IsClosed self.old self.new assumption) }
    {
        let Some((_, lit)) = assumption else {
            unreachable!()
        };
        let _ = self.watch.depth();
        let Some(id) = self.watch.reason(lit.var) else {
            unreachable!()
        };
        let end = place_of(&self.watch, lit.var);
        self.close(assumption, id, end)
    }

    /// Deals with a false clause.
    fn meet(
        &mut self,
        assumption: Option<(u64, Lit)>,
        budget: u64,
        conflict: u64,
    ) -> Result<Option<Outcome>, AllocError>
        requires ready { IsReady self.old assumption budget }
        requires conflict { NamesFalse self.old.watch.placed self.old.watch.clauses conflict }
        ensures { IfOk result (IsStep self.old self.new assumption budget) }
    {
        let _ = self.watch.depth();
        if is_closing(&self.watch, assumption) {
            let end = self.watch.trail().len();
            self.close(assumption, conflict, end)?;
            return Ok(Some(Outcome::Refuted));
        }
        self.learn(conflict)?;
        if self.learnt > budget {
            self.log.push(Line::Spent)?;
            return Ok(Some(Outcome::Spent));
        }
        Ok(None)
    }

    /// Goes on where nothing is left to propagate.
    fn go_on(
        &mut self,
        assumption: Option<(u64, Lit)>,
        budget: u64,
        reach: usize,
    ) -> Result<Option<Outcome>, AllocError>
        requires ready { IsReady self.old assumption budget }
        requires settled { IsSettled (lits_of self.old.watch.placed) self.old.watch.clauses }
        ensures { IfOk result (IsTurn reach self.old self.new assumption budget) }
    {
        match next(
            &self.watch,
            &mut self.heap,
            self.first.as_slice(),
            assumption,
            reach,
        ) {
            Move::Decide(lit) => {
                self.watch.decide(lit)?;
                Ok(None)
            }
            Move::Refute => {
                self.close_true(assumption)?;
                Ok(Some(Outcome::Refuted))
            }
            Move::Finish => {
                let _ = self.watch.depth();
                self.model = values_of(self.alloc, &self.watch)?;
                Ok(Some(Outcome::Model))
            }
        }
    }

    /// One turn of the search.
    fn step(
        &mut self,
        assumption: Option<(u64, Lit)>,
        budget: u64,
        reach: usize,
    ) -> Result<Option<Outcome>, AllocError>
        requires { IsReady self.old assumption budget }
        ensures { IfOk result (IsTurn reach self.old self.new assumption budget) }
    {
        match self.watch.propagate()? {
            Some(conflict) => self.meet(assumption, budget, conflict),
            None => self.go_on(assumption, budget, reach),
        }
    }

    /// Searches until a model, a refutation, or the end of the budget. A model gives a value to each
    /// variable below the reach; those above, where none has a clause yet, need none.
    pub fn run_within(
        &mut self,
        assumption: Option<(u64, Lit)>,
        budget: u64,
        reach: usize,
    ) -> Result<Outcome, AllocError>
        requires search { IsSearch self.old }
        requires open_log { IsOpen self.old.log }
        requires in_budget { learnt_in self.old.log ≤ budget }
        requires in_order { IsInOrder (value_of false self.old) assumption }
        ensures { IfOk result (λ o. IsTurn reach self.old self.new assumption budget (Some o)) }
    {
        backtrack(&mut self.watch, &mut self.heap, 0);
        loop {
            if let Some(outcome) = self.step(assumption, budget, reach)? {
                return Ok(outcome);
            }
        }
    }

    /// Searches until a model of all variables, a refutation, or the end of the budget.
    pub fn run(
        &mut self,
        assumption: Option<(u64, Lit)>,
        budget: u64,
    ) -> Result<Outcome, AllocError>
        requires search { IsSearch self.old }
        requires open_log { IsOpen self.old.log }
        requires in_budget { learnt_in self.old.log ≤ budget }
        requires in_order { IsInOrder (value_of false self.old) assumption }
        ensures { IfOk result (λ o. IsStep self.old self.new assumption budget (Some o)) }
    {
        let reach = self.watch.vars();
        self.run_within(assumption, budget, reach)
    }

    /// Settles a bit at 0.
    pub fn fix(&mut self, bit: u64, lit: Lit) -> Result<(), AllocError>
        requires search { IsSearch self.old }
        requires open_log { IsOpen self.old.log }
        requires next { bit ≡ length self.old.given.items }
        requires in_range { var_of lit < self.old.watch.vars }
        ensures { OnOk result (IsFixed self.old self.new bit lit) }
    {
        backtrack(&mut self.watch, &mut self.heap, 0);
        let id = self.watch.next_id();
        let clause = Clause::single(self.alloc, lit.negated())?;
        self.watch.add(&clause)?;
        self.log.push(Line::Zero { id, bit })?;
        self.given.push(lit)?;
        Ok(())
    }
}

/// The first place of a variable on the trail.
fn place_of(watch: &Watch, var: Var) -> usize
    ensures within { result ≤ length watch.now.placed }
    ensures here { has_var (lits_of watch.now.placed) var.0 ≡ true
        → IsPlaceOf watch.now.placed var.0 result }
{
    let end = watch.trail().len();
    for at in 0..end {
        if watch.at(at).lit.var.0 == var.0 {
            return at;
        }
    }
    end
}
