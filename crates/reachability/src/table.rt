// All paths at once.
ghost use Rattle.std.specs.Prelude.{◌≡◌, ℕ, ◌*◌, ◌^◌, ◌<◌, ◌≤◌, All, IfErr, IfOk, MatchBool, IsTrue};
ghost use Rattle.reachability.specs.Places.{IsPathTable, leads};

use crate::bits::Bits;
use crate::search::{heads_of, search};
use plain_data::List;
use std::alloc::{AllocError, Global};
use std::marker::Model;

/// Between which places paths lead, made by a search for each place, and asked without memory.
///
/// It keeps a bit for each two places, in one allocation.
#[derive(Debug, Drop)]
pub struct PathTable {
    places: usize,
    marks: Bits,
}

impl Model for PathTable {
    ghost use Rattle.std.specs.Prelude.{◌≡◌, ◌*◌, ◌^◌, ◌<◌, length};
    ghost use Rattle.reachability.specs.Places.{PathMarks};

    ghost Value = { PathMarks };

    ghost view = { λ t. record { places = t.places; marks = t.marks } };

    ghost invariant = { λ t. (length t.marks ≡ t.places * t.places) × (t.places * t.places < 2 ^ 64) };
}

/// How many pairs of places there are; beyond 64 bits want of memory.
fn pairs_of(places: usize) -> Result<usize, AllocError>
    ensures ok { IfOk result (λ pairs. pairs ≡ places * places) }
    ensures cause { IfErr result (λ _. 2 ^ 64 ≤ places * places) }
{
    match places.checked_mul(places) {
        Some(pairs) => Ok(pairs),
        None => Err(AllocError),
    }
}

impl PathTable {
    /// The table of the paths over these arcs.
    pub fn new(
        alloc: Global,
        places: usize,
        arcs: &[(usize, usize)],
    ) -> Result<PathTable, AllocError>
        requires { All (λ arc. (arc.0 < places) × (arc.1 < places)) arcs.now }
        ensures { IfOk result (λ table. IsPathTable places arcs.now table) }
    {
        let heads = heads_of(alloc, places, arcs)?;
        let pairs = pairs_of(places)?;
        let mut marks = Bits::new(alloc, pairs)?;
        for place in 0..places {
            search(alloc, heads.as_slice(), place, place * places, &mut marks)?;
        }
        Ok(PathTable { places, marks })
    }

    /// How many places there are.
    pub fn places(&self) -> usize
        ensures { result ≡ self.now.places }
    {
        self.places
    }

    /// Whether a path of one or more arcs leads from one place to the other.
    pub fn leads(&self, from: usize, to: usize) -> bool
        requires from { from < self.now.places }
        requires to { to < self.now.places }
        ensures { result ≡ leads self.now from to }
    {
        self.marks.get(from * self.places + to)
    }

    /// Whether a path leads from a place to itself.
    pub fn has_cycle(&self) -> bool
        ensures { MatchBool result ((p : ℕ) × (p < self.now.places) × IsTrue (leads self.now p p))
            ((p : ℕ) → p < self.now.places → IsTrue (leads self.now p p) → ⊥) }
    {
        for place in 0..self.places {
            if self.leads(place, place) {
                return true;
            }
        }
        false
    }
}
