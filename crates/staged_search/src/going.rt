//! A solver whose calls ask for nothing: what they need is looked at first.
ghost use Rattle.std.specs.Prelude.{◌≡◌, true};

use clause_solver::{Outcome, Solver};
use clause_store::{ClauseList, Lit};
use plain_data::List;
use proof_log::Log;
use std::alloc::{AllocError, Global};
use std::marker::Model;

/// A solver, and whether its log may go on.
#[derive(Drop)]
pub struct Going {
    solver: Solver,
    is_open: bool,
}

impl Model for Going {
    ghost use Rattle.std.specs.Prelude.{Bool, ◌≡◌, true, false};
    ghost use Rattle.proof_log.specs.Lines.{IsOpen};

    ghost Value = { Bool };

    ghost view = { λ g. g.is_open };

    ghost invariant = { λ g. g.is_open ≡ true → (g.solver.failed ≡ false) × IsOpen g.solver.lines };
}

/// As many variables as a list has, and no clause.
fn without_clauses(alloc: Global, clauses: &ClauseList) -> Result<ClauseList, AllocError> {
    let mut none = ClauseList::new(alloc);
    for _ in 0..clauses.vars() {
        none.new_var()?;
    }
    Ok(none)
}

impl Going {
    /// A solver over the variables of a list that knows no clause yet.
    pub fn new(alloc: Global, clauses: &ClauseList, bits: u64) -> Result<Going, AllocError> {
        let none = without_clauses(alloc, clauses)?;
        let solver = Solver::new(alloc, &none, bits)?;
        Ok(Going {
            solver,
            is_open: true,
        })
    }

    /// From now on the clauses of a list from a place on, below another, are known, too, and a new
    /// stage begins; the log of the last one comes back.
    pub fn begin(&mut self, clauses: &ClauseList, from: u64, to: u64) -> Result<Log, AllocError> {
        self.is_open = false;
        let log = self.solver.begin_anew(clauses, from, to)?;
        self.is_open = true;
        Ok(log)
    }

    /// Looks for a model, without an assumption; false where none is found.
    pub fn find(&mut self, budget: u64, reach: usize) -> Result<bool, AllocError> {
        if !self.is_open || self.solver.learnt() > budget {
            return Ok(false);
        }
        self.is_open = false;
        match self.solver.solve_within(None, budget, reach)? {
            Outcome::Model => {
                self.is_open = true;
                Ok(true)
            }
            _ => Ok(false),
        }
    }

    /// Looks for a model in which the literal of the next bit is false. None where it cannot be
    /// said; false where there is none, and then the bit is settled.
    pub fn find_false(
        &mut self,
        lit: Lit,
        budget: u64,
        reach: usize,
    ) -> Result<Option<bool>, AllocError> {
        if !self.is_open
            || self.solver.learnt() > budget
            || (lit.var.0 as usize) >= self.solver.vars()
        {
            return Ok(None);
        }
        self.is_open = false;
        let bit = self.solver.settled();
        match self.solver.solve_within(Some((bit, lit)), budget, reach)? {
            Outcome::Model => {
                self.is_open = true;
                Ok(Some(true))
            }
            Outcome::Refuted => {
                self.is_open = true;
                Ok(Some(false))
            }
            Outcome::Spent => Ok(None),
        }
    }

    /// Settles the next bit at 0.
    pub fn fix(&mut self, lit: Lit) -> Result<bool, AllocError> {
        if !self.is_open || (lit.var.0 as usize) >= self.solver.vars() {
            return Ok(false);
        }
        self.is_open = false;
        let bit = self.solver.settled();
        self.solver.fix(bit, lit)?;
        self.is_open = true;
        Ok(true)
    }

    /// What is decided before all else, at false.
    pub fn decide_first(&mut self, lits: List<Lit>)
        ensures { self.new ≡ self.old }
    {
        self.solver.decide_first(lits);
    }

    /// What is decided soon, at false.
    pub fn prefer_false(&mut self, lits: &[Lit])
        ensures { self.new ≡ self.old }
    {
        self.solver.prefer_false(lits);
    }

    /// Variables from one on, below another, are decided next as a model has them.
    pub fn expect(&mut self, model: &[bool], from: usize, to: usize) {
        for x in from..to {
            if x < model.len() {
                let var = clause_store::Var(x as u64);
                let positive = model[x];
                self.solver.expect(Lit { var, positive });
            }
        }
    }

    /// The last model.
    pub fn model(&self) -> &[bool] {
        self.solver.model()
    }

    /// How many clauses this stage has learnt.
    pub fn learnt(&self) -> u64 {
        self.solver.learnt()
    }

    /// The log of this stage.
    pub fn log(&self) -> &Log {
        self.solver.log()
    }
}
