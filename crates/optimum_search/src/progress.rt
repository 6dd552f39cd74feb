//! The stages of a long run, and a device that is told them. Nothing is promised of it, and nothing
//! rests on it.

/// What a run is at.
#[derive(Clone, Copy, Debug, PartialEq, Eq)]
pub enum Stage {
    /// What is asked, the settings, the database and the recipes are read.
    Reading,
    /// The same, and then a lock file or a certificate is checked.
    Checking,
    /// A problem with so many possible packages becomes clauses.
    Encoding {
        packages: u64,
    },
    /// A first model of so many clauses over so many variables is looked for.
    Searching {
        variables: u64,
        clauses: u64,
    },
    /// So many of the cost vector's numbers are the least that there are; the next one is being
    /// settled.
    Settling {
        settled: u64,
        numbers: u64,
        learnt: u64,
    },
    /// The answer is found, and is written.
    Writing,
}

/// A device that is told what a run is at. Calls come in any order, and a call changes the device
/// alone.
pub trait Progress {
    /// The run is at this stage from now on.
    fn tell(&mut self, stage: Stage);
}

/// It passes on to nobody what it is told.
#[derive(Clone, Copy, Debug, Drop)]
pub struct Untold;

impl Progress for Untold {
    fn tell(&mut self, _: Stage) {}
}
