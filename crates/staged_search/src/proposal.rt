//! The search in stages, of which nothing is promised.
ghost use Rattle.std.specs.Prelude.{◌≤◌, length};

use crate::going::Going;
use crate::ids::Whole;
use crate::model::{go_on, is_true};
use crate::parts::Part;
use clause_store::{ClauseList, Lit};
use optimum_search::{Number, Progress, Stage};
use plain_data::List;
use proof_log::{Line, Log};
use std::alloc::{AllocError, Global};

/// What the search in stages proposes.
#[derive(Drop)]
pub struct Proposal {
    pub model: Vec<bool>,
    pub log: Log,
}

/// A search in stages.
#[derive(Drop)]
struct Run {
    alloc: Global,
    going: Going,
    whole: Whole,
    /// The last model.
    model: Vec<bool>,
    budget: u64,
    /// The clauses and variables that came.
    came: Part,
    /// The place of the first bit of this stage.
    first: u64,
}

impl Run {
    fn new(
        alloc: Global,
        clauses: &ClauseList,
        bits: &[Lit],
        budget: u64,
    ) -> Result<Run, AllocError> {
        let count = bits.len() as u64;
        Ok(Run {
            alloc,
            going: Going::new(alloc, clauses, count)?,
            whole: Whole::new(alloc, clauses, count)?,
            model: Vec::new(alloc),
            budget,
            came: Part { reach: 0, end: 0 },
            first: 0,
        })
    }

    /// How many clauses this stage may learn.
    fn left(&self) -> u64 {
        self.budget.saturating_sub(self.whole.learnt)
    }

    /// A new stage, with the clauses up to the end of a part, where the bit at a place is next.
    fn begin(&mut self, clauses: &ClauseList, part: Part, at: usize) -> Result<(), AllocError> {
        let from = self.came.end;
        let log = self.going.begin(clauses, from, part.end)?;
        self.whole.take(log.lines(), self.first)?;
        self.whole.came(from, part.end)?;
        self.first = at as u64;
        self.came.end = part.end;
        Ok(())
    }

    /// The last model goes on over the clauses of a part, and its variables are expected so.
    fn go_on(&mut self, clauses: &ClauseList, part: Part) -> Result<(), AllocError> {
        go_on(
            self.alloc,
            &mut self.model,
            clauses,
            self.came.end,
            part.end,
        )?;
        let (from, to) = (self.came.reach as usize, part.reach as usize);
        self.going.expect(self.model.as_slice(), from, to);
        Ok(())
    }

    /// The clauses up to the end of a part come, if they have not.
    fn reach(&mut self, clauses: &ClauseList, part: Part, at: usize) -> Result<(), AllocError> {
        self.go_on(clauses, part)?;
        if part.end > self.came.end {
            self.begin(clauses, part, at)?;
        }
        self.came.reach = self.came.reach.max(part.reach);
        Ok(())
    }

    /// A first model.
    fn find(&mut self, clauses: &ClauseList, part: Part) -> Result<bool, AllocError> {
        self.begin(clauses, part, 0)?;
        self.came.reach = part.reach;
        let (left, reach) = (self.left(), self.came.reach as usize);
        let found = self.going.find(left, reach)?;
        if found {
            self.keep_model()?;
        }
        Ok(found)
    }

    fn keep_model(&mut self) -> Result<(), AllocError> {
        self.model = Vec::from_slice(self.alloc, self.going.model())?;
        Ok(())
    }

    /// Settles the next bit; false where it cannot be said.
    fn settle(&mut self, lit: Lit) -> Result<bool, AllocError> {
        if !is_true(self.model.as_slice(), lit) {
            return self.going.fix(lit);
        }
        let (left, reach) = (self.left(), self.came.reach as usize);
        match self.going.find_false(lit, left, reach)? {
            Some(true) => {
                self.keep_model()?;
                self.going.fix(lit)
            }
            Some(false) => Ok(true),
            None => Ok(false),
        }
    }

    /// Settles the bits of a number, those left before all else; false where it cannot be said.
    fn settle_all(&mut self, bits: &[Lit]) -> Result<bool, AllocError> {
        for at in 0..bits.len() {
            let first = Vec::from_slice(self.alloc, &bits[at..])?;
            self.going.decide_first(List::from_vec(first));
            if !self.settle(bits[at])? {
                return Ok(false);
            }
        }
        Ok(true)
    }

    /// Settles the bits of a number, from a place to an end, with the clauses of its part.
    fn settle_number(
        &mut self,
        clauses: &ClauseList,
        part: Part,
        bits: &[Lit],
        place: usize,
        end: usize,
        number: &Number,
    ) -> Result<bool, AllocError>
        requires low { place ≤ end }
        requires high { end ≤ length bits.now }
    {
        self.reach(clauses, part, place)?;
        self.going.prefer_false(number.parts.as_slice());
        self.settle_all(&bits[place..end])
    }

    /// What the search is at whose first numbers are settled.
    fn stage(&self, settled: usize, numbers: usize) -> Stage {
        Stage::Settling {
            settled: settled as u64,
            numbers: numbers as u64,
            learnt: self.whole.learnt.saturating_add(self.going.learnt()),
        }
    }

    /// The last model goes on over all clauses that have not come.
    fn go_on_to_end(&mut self, clauses: &ClauseList) -> Result<(), AllocError> {
        let all = Part {
            reach: clauses.vars(),
            end: clauses.len(),
        };
        self.go_on(clauses, all)
    }

    /// The whole log, with its end.
    fn end(self) -> Result<Proposal, AllocError> {
        let Run {
            going,
            mut whole,
            model,
            first,
            alloc: _,
            budget: _,
            came: _,
        } = self;
        whole.take(going.log().lines(), first)?;
        whole.log.push(Line::End)?;
        let Whole { log, .. } = whole;
        Ok(Proposal { model, log })
    }
}

/// Settles the bits of all numbers; false where it cannot be said, or some bits are of none.
fn settle_numbers<P: Progress>(
    run: &mut Run,
    clauses: &ClauseList,
    parts: &[Part],
    bits: &[Lit],
    numbers: &[Number],
    progress: &mut P,
) -> Result<bool, AllocError> {
    let mut place = 0;
    for (at, number) in numbers.iter().enumerate() {
        progress.tell(run.stage(at, numbers.len()));
        let Some(part) = parts.get(at) else {
            return Ok(false);
        };
        let end = number.end;
        if place < end && end <= bits.len() {
            if !run.settle_number(clauses, *part, bits, place, end, number)? {
                return Ok(false);
            }
            place = end;
        }
    }
    Ok(place == bits.len())
}

/// A model that may have the least bits, with a log that may show it: the clauses of each part come
/// when the first bit of its number does. None where the budget falls short.
pub fn propose<P: Progress>(
    alloc: Global,
    clauses: &ClauseList,
    start: Part,
    parts: &[Part],
    bits: &[Lit],
    numbers: &[Number],
    near: &[bool],
    budget: u64,
    progress: &mut P,
) -> Result<Option<Proposal>, AllocError> {
    let mut run = Run::new(alloc, clauses, bits, budget)?;
    run.going.expect(near, 0, near.len());
    if !run.find(clauses, start)? {
        return Ok(None);
    }
    if !settle_numbers(&mut run, clauses, parts, bits, numbers, progress)? {
        return Ok(None);
    }
    run.go_on_to_end(clauses)?;
    Ok(Some(run.end()?))
}
