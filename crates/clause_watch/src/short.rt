//! Clauses of two literals: the other one is true, where the first became false.
ghost use Rattle.std.specs.Prelude.{◌≡◌, ◌+◌, ◌^◌, ◌<◌, true, slice_get, Some, IfOk};
ghost use Rattle.clause_watch.specs.Reasons.{Grown};
ghost use Rattle.clause_watch.specs.Watches.{IsWatch};
ghost use Rattle.clause_watch.specs.Lists.{row_of};
ghost use Rattle.clause_watch.specs.Watching.{IsWatching, IsVisiting, IsVisited};

use crate::arrivals::follow;
use crate::clause_table::ClauseTable;
use crate::lists::Entry;
use crate::queue::{Queue, Visited};
use crate::trail::Trail;
use clause_store::Lit;
use std::alloc::AllocError;

impl Queue {
    /// Looks at a clause that has no literal but the list's and the entry's other one.
    pub fn follow_other(
        &self,
        trail: &mut Trail,
        clauses: &ClauseTable,
        lit: Lit,
        at: usize,
        entry: Entry,
    ) -> Result<Visited, AllocError>
        requires right { IsWatch trail.old.vars clauses.now trail.old.placed }
        requires watching { IsWatching trail.old.vars clauses.now trail.old.placed self.now }
        requires visiting { IsVisiting clauses.now trail.old.placed self.now lit at }
        requires here { slice_get (row_of self.now.lists lit) at ≡ Some entry }
        requires small { at + 1 < 2 ^ 64 }
        requires two { entry.two ≡ true }
        ensures grown { Grown clauses.now trail.old trail.new }
        ensures watching { IsWatching trail.new.vars clauses.now trail.new.placed self.now }
        ensures visited { IfOk result
            (IsVisited clauses.now trail.new.placed self.now self.now lit at) }
    {
        let _ = clauses;
        let id = entry.place as u64 + 1;
        if trail.is_false(entry.other) {
            return Ok(Visited::False(id));
        }
        follow(trail, entry.other, id)?;
        Ok(Visited::Next(at + 1))
    }
}
