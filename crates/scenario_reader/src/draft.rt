//! The sections of a text, while its lines are read.

ghost use Rattle.std.specs.Prelude.{◌≡◌, [], None, IfOk, OnOk};
ghost use Rattle.scenario_reader.specs.Faults.{Becomes};

use crate::entry::{Entry, text_of};
use crate::fault::{FaultKind, ScenarioError, fault_at};
use crate::kind::{Kind, kind_of, path_of};
use crate::mark::{Mark, PLAIN, QUOTED, between, mark_of};
use plain_data::{List, Word};
use std::alloc::{AllocError, Global};

/// Sections while they are read, changed in place.
#[derive(Debug, Drop)]
pub(crate) struct Draft {
    /// The sections that are over.
    pub done: List<Entry>,
    /// The section at hand; `None` before the first.
    pub current: Option<Entry>,
}

impl Draft {
    ghost use Rattle.scenario_reader.specs.Sections.{is_taken, closed, begun, named, with, take_line};

    /// What stands before the first line.
    pub(crate) fn new(alloc: Global) -> Draft
        ensures { result ≡ record { done = []; current = None } }
    {
        Draft {
            done: List::new(alloc),
            current: None,
        }
    }

    /// The section at hand is over.
    pub(crate) fn close(&mut self) -> Result<(), AllocError>
        ensures { OnOk result (self.new ≡ closed self.old) }
    {
        match self.current.take() {
            Some(entry) => self.done.push(entry),
            None => Ok(()),
        }
    }

    /// Whether a section that is over has this name.
    fn has(&self, kind: Kind, path: &str) -> bool
        ensures { result ≡ is_taken kind path.now self.now.done }
    {
        self.done
            .as_slice()
            .iter()
            .any(|entry| entry.is_same(kind, path))
    }

    /// Begins a section of that kind and path.
    fn begin(
        &mut self,
        alloc: Global,
        line: u64,
        quoted: bool,
        kind: Kind,
        path: Word,
    ) -> Result<(), ScenarioError>
        ensures { Becomes (begun line quoted kind path (closed self.old)) self.new result }
    {
        self.close()?;
        if self.has(kind, path.as_str()) {
            return Err(fault_at(line, FaultKind::Twice));
        }
        self.current = Some(Entry {
            line,
            quoted,
            kind,
            path,
            items: List::new(alloc),
        });
        Ok(())
    }

    /// Begins a section of that name.
    fn name(
        &mut self,
        alloc: Global,
        line: u64,
        quoted: bool,
        name: &[u8],
    ) -> Result<(), ScenarioError>
        ensures { Becomes (named line quoted name.now self.old) self.new result }
    {
        let kind = kind_of(name);
        if kind.is(Kind::Unknown) {
            return Err(fault_at(line, FaultKind::UnknownWant));
        }
        match text_of(alloc, path_of(kind, name))? {
            Some(path) => self.begin(alloc, line, quoted, kind, path),
            None => Err(fault_at(line, FaultKind::NotText)),
        }
    }

    /// A line that belongs to the section at hand, or to none.
    fn add(&mut self, alloc: Global, line: u64, text: &[u8]) -> Result<(), ScenarioError>
        ensures { Becomes (with line text.now self.old) self.new result }
    {
        match &mut self.current {
            Some(entry) => entry.add(alloc, line, text),
            None => Ok(()),
        }
    }

    /// Takes the line of that number.
    pub(crate) fn take(
        &mut self,
        alloc: Global,
        line: u64,
        text: &[u8],
    ) -> Result<(), ScenarioError>
        ensures { Becomes (take_line line text.now self.old) self.new result }
    {
        match mark_of(text) {
            Mark::Inside => self.add(alloc, line, text),
            Mark::Plain => self.name(alloc, line, false, between(PLAIN, text)),
            Mark::Quoted => self.name(alloc, line, true, between(QUOTED, text)),
            Mark::Broken => Err(fault_at(line, FaultKind::Marker)),
        }
    }
}
