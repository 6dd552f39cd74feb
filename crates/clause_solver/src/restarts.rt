//! When a search restarts from level 0: by Luby's sequence.
ghost use Rattle.std.specs.Prelude.{◌≡◌, ◌-◌, ◌<◌, ◌≤◌, ◌⊎◌};
ghost use Rattle.clause_solver.specs.Luby.{IsNextTerm};

/// So many conflicts make one step.
const UNIT: u64 = 100;

/// Counts conflicts: a search restarts after so many units, by Luby's sequence 1, 1, 2, 1, 1, 2, 4,
/// 1, ..
///
/// Learnt clauses are kept, so a later run of a search finds what the earlier ones learnt.
#[derive(Clone, Copy)]
pub struct Restarts {
    /// How many conflicts are left in this run.
    left: u64,
    /// How many units this run has: the present term of Luby's sequence.
    term: u64,
    /// How often the sequence came back to 1.
    round: u64,
}

impl Restarts {
    /// The first run.
    pub fn new() -> Restarts
        ensures { result ≡ record { left = UNIT; term = 1; round = 1 } }
    {
        Restarts {
            left: UNIT,
            term: 1,
            round: 1,
        }
    }

    /// After a conflict: the level to backtrack to, and 0 where the search restarts.
    pub fn level(&mut self, level: u64) -> u64
        ensures either { (result ≡ level) ⊎ (result ≡ 0) }
        ensures within { 1 < self.old.left
            → (result ≡ level) × (self.new ≡ record self.old { left = self.old.left - 1 }) }
        ensures over { self.old.left ≤ 1 → (result ≡ 0) × IsNextTerm UNIT self.old self.new }
    {
        if self.left > 1 {
            self.left -= 1;
            return level;
        }
        self.next_term();
        0
    }

    /// The next term: twice the last one, or 1 where the number of rounds has no more factors 2.
    fn next_term(&mut self)
        ensures { IsNextTerm UNIT self.old self.new }
    {
        if self.round & self.term == 0 {
            self.term = self.term.saturating_mul(2);
        } else {
            self.round = self.round.saturating_add(1);
            self.term = 1;
        }
        self.left = self.term.saturating_mul(UNIT);
    }
}
