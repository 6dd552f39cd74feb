//! A line of a log.

use crate::Log;
use clause_store::Clause;
use plain_data::List;

/// A line of a log.
///
/// Clauses that are known have ids from 1: the input clauses first, and then the clause of each
/// `Learnt`, `Zero` and `One` line. Bits count from 0. A chain lists ids of known clauses: it
/// starts with the first clause, and each further one is resolved with what there is, on the one
/// variable that stands in both with opposite signs.
#[derive(Drop)]
pub enum Line {
    /// The first line: how many variables, input clauses and bits there are.
    Header {
        vars: u64,
        clauses: u64,
        bits: u64,
    },
    /// The chain derives a clause contained in this one, which is known from now on.
    Learnt {
        id: u64,
        clause: Clause,
        chain: List<u64>,
    },
    /// The bit is 0: the negation of its literal is known from now on.
    Zero {
        id: u64,
        bit: u64,
    },
    /// The bit is 1: the chain derives its literal, which is known from now on.
    One {
        id: u64,
        bit: u64,
        chain: List<u64>,
    },
    /// The chain derives the empty clause: there is no model. Nothing follows.
    Unsat {
        chain: List<u64>,
    },
    /// More clauses were learnt than the budget allows. Nothing follows.
    Spent,
    /// All bits are settled. Nothing follows.
    End,
}

/// A value that may be lent to threads, and handed back by them.
fn crosses<T: Send + Sync>() {}

/// Lines and logs do.
fn lines_cross() {
    crosses::<Line>();
    crosses::<Log>();
}
