//! What comes of scenarios, and how many there are of each kind.

ghost use Rattle.std.specs.Prelude.{◌≡◌, IfOk};
ghost use Rattle.std.specs.String.{string_bytes};
ghost use Rattle.scenario_replay.specs.Told.{lines_of, none_yet, counted, last_line, answer_of};

use std::alloc::{AllocError, Global};

/// What came of a replay.
#[derive(Clone, Copy, Debug, PartialEq, Eq)]
pub enum Replayed {
    /// There was a scenario, and nothing differed.
    Same,
    /// Something differed, a file was no scenario, a folder had none, or nothing was named.
    Differs,
    /// A line could not be said, or memory ran out.
    Broken,
}

/// What is to be said of one file.
#[derive(Drop)]
pub(crate) enum Comparison {
    Same,
    Differs(String),
    Wrong(String),
}

impl Comparison {
    /// The lines that are said of a file.
    pub(crate) fn lines(&self, alloc: Global, path: &str) -> Result<String, AllocError>
        ensures { IfOk result (λ text. string_bytes text ≡ lines_of path.now self.now) }
    {
        match self {
            Comparison::Same => format!(in alloc; "same {path}\n"),
            Comparison::Differs(what) => format!(in alloc; "differs {path}\n{what}"),
            Comparison::Wrong(why) => format!(in alloc; "no scenario {path}: {why}\n"),
        }
    }
}

/// How many scenarios there were of each kind.
#[derive(Clone, Copy, Debug)]
pub(crate) struct Counts {
    pub same: u64,
    pub differing: u64,
    pub wrong: u64,
}

impl Counts {
    pub(crate) fn none() -> Counts
        ensures { result ≡ none_yet }
    {
        Counts {
            same: 0,
            differing: 0,
            wrong: 0,
        }
    }

    pub(crate) fn add(&mut self, comparison: &Comparison)
        ensures { self.new ≡ counted comparison.now self.old }
    {
        match comparison {
            Comparison::Same => self.same = self.same.saturating_add(1),
            Comparison::Differs(_) => self.differing = self.differing.saturating_add(1),
            Comparison::Wrong(_) => self.wrong = self.wrong.saturating_add(1),
        }
    }

    pub(crate) fn line(&self, alloc: Global) -> Result<String, AllocError>
        ensures { IfOk result (λ text. string_bytes text ≡ last_line self.now) }
    {
        let (same, differing, wrong) = (self.same, self.differing, self.wrong);
        format!(in alloc; "{same} same, {differing} differ, {wrong} no scenario\n")
    }

    pub(crate) fn answer(&self) -> Replayed
        ensures { result ≡ answer_of self.now }
    {
        if self.same != 0 && self.differing == 0 && self.wrong == 0 {
            Replayed::Same
        } else {
            Replayed::Differs
        }
    }
}
