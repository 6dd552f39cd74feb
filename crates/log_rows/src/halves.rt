//! `halves`: whether the two halves of a block run beside each other, and which places each tells
//! its gate.
use clause_store::{ClauseList, Lit};
use log_checker::{Checker, Gate, Step};
use proof_log::Line;
use std::alloc::{AllocError, Global};
use std::sync::atomic::{AtomicBool, AtomicU64, Ordering};
use std::thread::Threads;

/// Notes where each half was, and has each wait for a while until the other was somewhere.
#[derive(Drop)]
pub struct Masks {
    first: AtomicU64,
    second: AtomicU64,
    alone: AtomicBool,
}

impl Masks {
    pub fn new() -> Masks {
        Masks {
            first: AtomicU64::new(0),
            second: AtomicU64::new(0),
            alone: AtomicBool::new(false),
        }
    }

    /// Where each half was, a bit for a place, and whether one was alone.
    pub fn text(&self, alloc: Global) -> Result<String, AllocError> {
        format!(in alloc;
            "places {} and {}, alone: {}",
            self.first.load(Ordering::SeqCst),
            self.second.load(Ordering::SeqCst),
            self.alone.load(Ordering::SeqCst)
        )
    }
}

impl Gate for Masks {
    fn arrive(&self, half: u64, place: u64) {
        let bit = if place < 64 { 1u64 << place } else { 0 };
        let met = if half == 0 {
            self.first.fetch_or(bit, Ordering::SeqCst);
            is_there(&self.second)
        } else {
            self.second.fetch_or(bit, Ordering::SeqCst);
            is_there(&self.first)
        };
        if !met {
            self.alone.store(true, Ordering::SeqCst);
        }
    }
}

/// Whether a half arrives somewhere within many turns.
fn is_there(mask: &AtomicU64) -> bool {
    for _ in 0..100_000_000u64 {
        if mask.load(Ordering::SeqCst) != 0 {
            return true;
        }
    }
    false
}

/// A certificate of eight lines, checked as one block.
pub fn answer<R: Threads + Sync>(rt: &R, alloc: Global) -> Result<String, AllocError> {
    let mut clauses = ClauseList::new(alloc);
    let mut bits = Vec::new(alloc);
    let mut values = Vec::new(alloc);
    let mut lines = Vec::new(alloc);
    lines.push(Line::Header {
        vars: 6,
        clauses: 0,
        bits: 6,
    })?;
    for bit in 0..6u64 {
        let var = clauses.new_var()?;
        bits.push(Lit {
            var,
            positive: true,
        })?;
        values.push(false)?;
        lines.push(Line::Zero { id: bit + 1, bit })?;
    }
    lines.push(Line::End)?;
    let gate = Masks::new();
    let mut checker = Checker::new(alloc, &clauses, &bits, Some(&values))?;
    let word = match checker.step_block(rt, &gate, &lines)? {
        Step::Accepted => "accepted",
        Step::Refused { .. } => "refused",
    };
    let places = gate.text(alloc)?;
    format!(in alloc; "{word}, {places}")
}
