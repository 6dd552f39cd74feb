//! Who watches a literal.
ghost use Rattle.std.specs.Prelude.{◌<◌, IfOk};
ghost use Rattle.std.specs.List.{All};
ghost use Rattle.clause_store.specs.Lits.{var_of};
ghost use Rattle.clause_watch.specs.Watches.{IsWatch, IsWatcher};
ghost use Rattle.clause_watch.specs.Watching.{IsWatching};

use crate::clause_table::ClauseTable;
use crate::queue::Queue;
use crate::trail::Trail;
use clause_store::Lit;
use std::alloc::{AllocError, Global};

impl Queue {
    /// The ids of the clauses that watch a literal.
    pub fn watchers(
        &self,
        alloc: Global,
        trail: &Trail,
        clauses: &ClauseTable,
        lit: Lit,
    ) -> Result<Vec<u64>, AllocError>
        requires right { IsWatch trail.now.vars clauses.now trail.now.placed }
        requires watching { IsWatching trail.now.vars clauses.now trail.now.placed self.now }
        requires in_range { var_of lit < trail.now.vars }
        ensures { IfOk result (λ ids. All (IsWatcher clauses.now lit) ids.items) }
    {
        let _ = clauses;
        let _ = trail.vars();
        let mut ids = Vec::new(alloc);
        for at in 0..self.lists.row(lit).len() {
            if let Some(watcher) = self.watcher(lit, at) {
                ids.push(watcher.id())?;
            }
        }
        Ok(ids)
    }
}
