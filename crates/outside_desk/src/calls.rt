// Calls by their numbers, some of which are to fail.
ghost use Rattle.std.specs.Prelude.{◌≡◌, [], ◌∷◌, ◌++◌, ◌↔◌, IsTrue, Contains, OnOk, OnErr};
ghost use Rattle.outside_desk.specs.Causes.{one_more};

use std::alloc::{AllocError, Global};

/// Counts calls from 0, and knows the numbers of those that are to fail.
#[derive(Drop)]
pub struct Calls {
    pub next: u64,
    pub failing: Vec<u64>,
}

impl Calls {
    pub fn new(alloc: Global) -> Calls
        ensures next { result.next ≡ 0 }
        ensures failing { result.failing.items ≡ [] }
    {
        Calls {
            next: 0,
            failing: Vec::new(alloc),
        }
    }

    pub fn fail(&mut self, call: u64) -> Result<(), AllocError>
        ensures next { self.new.next ≡ self.old.next }
        ensures ok { OnOk result (self.new.failing.items ≡ self.old.failing.items ++ call ∷ []) }
        ensures err { OnErr result (self.new.failing.items ≡ self.old.failing.items) }
    {
        Ok(self.failing.push(call)?)
    }

    /// Counts a call, and answers whether it is to fail.
    pub fn fails(&mut self) -> bool
        ensures fails { IsTrue result ↔ Contains self.old.failing.items self.old.next }
        ensures next { self.new.next ≡ one_more self.old.next }
        ensures failing { self.new.failing.items ≡ self.old.failing.items }
    {
        let call = self.next;
        self.next = call.saturating_add(1);
        self.failing.contains(&call)
    }
}
