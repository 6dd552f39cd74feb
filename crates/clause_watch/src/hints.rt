//! Where the look for a literal of a long clause goes on.

/// From how many literals on a clause is long.
const LONG: usize = 32;

/// How many hints are kept.
const HINTS: usize = 256;

/// Places in long clauses behind which the last look for a literal ended. Where the literals of a
/// long clause become false one after another, looks that begin there are as many as its literals
/// together, and their square where each begins at its front (Gent, Optimal Implementations of
/// Watched Literals and More General Techniques, 2013). Clauses share the hints. A look goes round,
/// so it is right wherever it begins.
#[derive(Drop)]
pub struct Hints {
    places: [usize; HINTS],
}

impl Hints {
    /// Each look begins at the front.
    pub fn new() -> Hints {
        Hints { places: [0; HINTS] }
    }

    /// Where a look begins in the clause at this place, of so many literals.
    pub fn start(&self, place: usize, count: usize) -> usize {
        if count < LONG {
            return 0;
        }
        self.places[place % HINTS]
    }

    /// A look in the clause at this place, of so many literals, ended at one of these.
    pub fn keep(&mut self, place: usize, count: usize, at: usize) {
        if count >= LONG {
            self.places[place % HINTS] = at;
        }
    }
}
