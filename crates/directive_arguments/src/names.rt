//! Names that were seen.

ghost use Rattle.std.specs.Prelude.{◌≡◌, [], ◌∷◌, ◌++◌, not, IfOk, if◌then◌else◌};
ghost use Rattle.std.specs.List.{list_any};
ghost use Rattle.std.specs.Str.{bytes_eq};

use indexmap::IndexSet;
use plain_data::Word;
use std::alloc::{AllocError, Global};
use std::marker::Model;

/// How many names are looked through one after the other: nearly all calls have fewer keywords, and a table by hash
/// takes two allocations for the first name.
const FEW: usize = 8;

/// Names in the order in which they were added, each once; seen as their list.
#[derive(Debug, Drop)]
pub struct Names {
    /// The first ones, which are looked through.
    few: Vec<Word>,
    /// Those behind them, in a table by hash.
    more: IndexSet<Word>,
}

impl Model for Names {
    ghost use Rattle.std.specs.Prelude.{ℕ, List, ◌++◌};

    ghost Value = { List (List ℕ) };

    ghost view = { λ names. names.few.items ++ names.more.keys };
}

/// Whether a name is among these.
fn has(names: &[Word], name: &Word) -> bool
    ensures { result ≡ list_any (bytes_eq name.now) names.now }
{
    names.iter().any(|one| name == one)
}

impl Names {
    /// No name.
    pub fn new(alloc: Global) -> Names
        ensures { result ≡ [] }
    {
        Names {
            few: Vec::new(alloc),
            more: IndexSet::new(alloc),
        }
    }

    /// Adds a name, unless it is there already; whether it is new. Takes constant time on average.
    pub fn add(&mut self, name: Word) -> Result<bool, AllocError>
        ensures new { IfOk result (λ is_new. is_new ≡ not (list_any (bytes_eq name) self.old)) }
        ensures names { IfOk result (λ is_new. self.new
            ≡ (if is_new then self.old ++ name ∷ [] else self.old)) }
    {
        if has(self.few.as_slice(), &name) {
            return Ok(false);
        }
        if self.few.len() < FEW && self.more.is_empty() {
            self.few.push(name)?;
            return Ok(true);
        }
        Ok(self.more.insert(name)?)
    }
}
