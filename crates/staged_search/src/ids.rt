//! The ids that clauses have in the whole log.
//!
//! A stage knows its clauses in the order in which they came: those of a stage before, what was
//! learnt there, and then its own. In the whole log all clauses of the list come first.

use clause_store::ClauseList;
use plain_data::List;
use proof_log::{Line, Log};
use std::alloc::{AllocError, Global};

/// The id in the whole log of each clause that is known, in the order in which they came, and the
/// whole log so far.
#[derive(Drop)]
pub struct Whole {
    alloc: Global,
    ids: Vec<u64>,
    /// The last id that was given.
    last: u64,
    pub log: Log,
    /// How many clauses were learnt.
    pub learnt: u64,
}

impl Whole {
    /// A log with its Header alone.
    pub fn new(alloc: Global, clauses: &ClauseList, bits: u64) -> Result<Whole, AllocError> {
        let mut log = Log::new(alloc);
        log.push(Line::Header {
            vars: clauses.vars(),
            clauses: clauses.len(),
            bits,
        })?;
        Ok(Whole {
            alloc,
            ids: Vec::new(alloc),
            last: clauses.len(),
            log,
            learnt: 0,
        })
    }

    /// The clauses of the list from a place on, below another, came.
    pub fn came(&mut self, from: u64, to: u64) -> Result<(), AllocError> {
        for place in from..to {
            self.ids.push(place + 1)?;
        }
        Ok(())
    }

    /// The id in the whole log of the clause with an id of a stage.
    fn id_of(&self, id: u64) -> u64 {
        match self.ids.get(id.saturating_sub(1) as usize) {
            Some(whole) => *whole,
            None => id,
        }
    }

    /// The next id, which the next clause gets that came.
    fn next(&mut self) -> Result<u64, AllocError> {
        self.last = self.last.saturating_add(1);
        self.ids.push(self.last)?;
        Ok(self.last)
    }

    /// A chain in the ids of the whole log.
    fn chain_of(&self, chain: &[u64]) -> Result<List<u64>, AllocError> {
        let mut ids = Vec::with_capacity(self.alloc, chain.len())?;
        for id in chain {
            ids.push(self.id_of(*id))?;
        }
        Ok(List::from_vec(ids))
    }

    /// A line of a stage, whose first bit has this place.
    fn take_line(&mut self, line: &Line, first: u64) -> Result<(), AllocError> {
        match line {
            Line::Learnt { clause, chain, .. } => {
                let chain = self.chain_of(chain.as_slice())?;
                let clause = clause.duplicate(self.alloc)?;
                let id = self.next()?;
                self.learnt = self.learnt.saturating_add(1);
                self.log.push(Line::Learnt { id, clause, chain })
            }
            Line::Zero { bit, .. } => {
                let id = self.next()?;
                let bit = bit.saturating_add(first);
                self.log.push(Line::Zero { id, bit })
            }
            Line::One { bit, chain, .. } => {
                let chain = self.chain_of(chain.as_slice())?;
                let id = self.next()?;
                let bit = bit.saturating_add(first);
                self.log.push(Line::One { id, bit, chain })
            }
            _ => Ok(()),
        }
    }

    /// The lines of a stage, whose first bit has this place.
    pub fn take(&mut self, lines: &[Line], first: u64) -> Result<(), AllocError> {
        for line in lines {
            self.take_line(line, first)?;
        }
        Ok(())
    }
}
