//! The checker: one line after the other, or blocks of lines.
ghost use Rattle.std.specs.Prelude.{◌≡◌, IfOk, OnOk, OnErr};
ghost use Rattle.std.specs.Option.{option_map};
ghost use Rattle.clause_store.specs.Clauses.{clauses_of};
ghost use Rattle.proof_log.specs.Known.{AllClauses};
ghost use Rattle.log_checker.specs.Steps.{Going, begun, next_progress, run_lines, told, line_of, finish_on};

use crate::block::check_block;
use crate::gate::Gate;
use crate::position::Position;
use crate::signs::Signs;
use crate::step::{Step, Why};
use clause_store::{ClauseList, Lit};
use proof_log::Line;
use std::alloc::{AllocError, Global};
use std::marker::Model;
use std::thread::Threads;

/// A checker over the lines so far: it goes on, or stays with the first refusal.
#[derive(Drop)]
pub struct Checker {
    alloc: Global,
    vars: usize,
    position: Position,
    signs: Signs,
    refusal: Option<(u64, Why)>,
}

impl Model for Checker {
    ghost use Rattle.log_checker.specs.Steps.{Progress};
    ghost use Rattle.log_checker.specs.Blocks.{progress_of};

    ghost Value = { Progress };

    ghost view = { λ c. progress_of c.position c.refusal };
}

impl Checker {
    /// A checker before the first line: with values, of certificates that these are the least
    /// values of the bits; without, of refutations.
    pub fn new(
        alloc: Global,
        clauses: &ClauseList,
        bits: &[Lit],
        values: Option<&[bool]>,
    ) -> Result<Checker, AllocError>
        ensures start { IfOk result (λ checker. checker
            ≡ Going (begun clauses.now bits.now (option_map (λ v. v.now) values.entry))) }
        ensures in_order { OnOk result (AllClauses (clauses_of clauses.now.entries)) }
    {
        let vars = clauses.vars() as usize;
        Ok(Checker {
            alloc,
            vars,
            position: Position::new(alloc, clauses, bits, values)?,
            signs: Signs::new(alloc, vars)?,
            refusal: None,
        })
    }

    /// Checks the next line. After an error the checker is as it was.
    pub fn step(&mut self, line: &Line) -> Result<Step, AllocError>
        ensures next { OnOk result (self.new ≡ next_progress self.old line.now) }
        ensures answer { IfOk result (λ step. step ≡ told self.new) }
        ensures err { OnErr result (self.new ≡ self.old) }
    {
        if let Some((line, why)) = self.refusal {
            return Ok(Step::Refused { line, why });
        }
        match self.position.fault(&mut self.signs, line)? {
            Some(why) => {
                let line = self.position.lines() + 1;
                self.refusal = Some((line, why));
                Ok(Step::Refused { line, why })
            }
            None => {
                self.position.accept(line)?;
                Ok(Step::Accepted)
            }
        }
    }

    /// Checks the next lines, to the answer of `step` on one after the other. The lines up to the
    /// first that a test without its chain refuses go to two threads in halves, the first one
    /// rounded up; a half tells the gate of each line before it checks it. After an error the
    /// checker is as it was.
    pub fn step_block<R: Threads + Sync, G: Gate>(
        &mut self,
        rt: &R,
        gate: &G,
        lines: &[Line],
    ) -> Result<Step, AllocError>
        ensures next { OnOk result (self.new ≡ run_lines self.old lines.now) }
        ensures answer { IfOk result (λ step. step ≡ told self.new) }
        ensures err { OnErr result (self.new ≡ self.old) }
    {
        if let Some((line, why)) = self.refusal {
            return Ok(Step::Refused { line, why });
        }
        let mark = self.position.mark();
        match check_block(rt, self.alloc, self.vars, gate, &mut self.position, lines) {
            Ok(Some((line, why))) => {
                self.refusal = Some((line, why));
                Ok(Step::Refused { line, why })
            }
            Ok(None) => Ok(Step::Accepted),
            Err(error) => {
                self.position.back(mark);
                Err(error)
            }
        }
    }

    /// The number, from 1, of the next line; of the refused one after a refusal.
    pub fn line(&self) -> u64
        ensures { result ≡ line_of self.now }
    {
        match self.refusal {
            Some((line, _)) => line,
            None => self.position.lines() + 1,
        }
    }

    /// The answer so far: the first refusal, if there was one.
    pub fn so_far(&self) -> Step
        ensures { result ≡ told self.now }
    {
        match self.refusal {
            Some((line, why)) => Step::Refused { line, why },
            None => Step::Accepted,
        }
    }

    /// The answer at the end of the lines: the first refusal, and else whether the last line ended
    /// the log.
    pub fn finish(&self) -> Step
        ensures { result ≡ finish_on self.now }
    {
        if let Some((line, why)) = self.refusal {
            return Step::Refused { line, why };
        }
        if self.position.has_ended() {
            Step::Accepted
        } else {
            Step::Refused {
                line: self.position.lines() + 1,
                why: Why::Unfinished,
            }
        }
    }
}
