//! A section with its lines.

ghost use Rattle.std.specs.Prelude.{◌≡◌, ◌++◌, IfOk, OnOk, Option, None};
ghost use Rattle.std.specs.Str.{is_utf8};
ghost use Rattle.scenario_reader.specs.Texts.{text_of};
ghost use Rattle.scenario_reader.specs.Faults.{Becomes};
ghost use Rattle.scenario_reader.specs.Sections.{item_of, with_line, is_same_section, content_of};

use crate::fault::{FaultKind, ScenarioError, fault_at};
use crate::kind::Kind;
use crate::quote::unquote;
use plain_data::{List, Word};
use std::alloc::{AllocError, Global};
use std::str;

/// A section with its lines.
#[derive(Debug, Drop)]
pub(crate) struct Entry {
    /// The number of its first line, which has its name.
    pub line: u64,
    /// Whether its lines are quoted.
    pub quoted: bool,
    pub kind: Kind,
    /// Its path, or its name where it has none.
    pub path: Word,
    /// What each further line stands for, with its number.
    pub items: List<(u64, List<u8>)>,
}

/// The bytes as a text; `None` where they are none.
pub(crate) fn text_of(alloc: Global, bytes: &[u8]) -> Result<Option<Word>, AllocError>
    ensures { IfOk result (λ word. word ≡ text_of bytes.now) }
{
    match str::from_utf8(bytes) {
        Ok(text) => Ok(Some(Word::new(alloc, text)?)),
        Err(_) => Ok(None),
    }
}

/// The bytes, to be kept.
fn kept(alloc: Global, bytes: &[u8]) -> Result<List<u8>, AllocError>
    ensures { IfOk result (λ list. list ≡ bytes.now) }
{
    Ok(List::from_vec(Vec::from_slice(alloc, bytes)?))
}

/// What a line stands for; `None` where it is no quoted line.
fn item_of(alloc: Global, quoted: bool, line: &[u8]) -> Result<Option<List<u8>>, AllocError>
    ensures { IfOk result (λ item. item ≡ item_of quoted line.now) }
{
    if quoted {
        return unquote(alloc, line);
    }
    Ok(Some(kept(alloc, line)?))
}

impl Entry {
    /// A line more.
    pub(crate) fn add(
        &mut self,
        alloc: Global,
        number: u64,
        line: &[u8],
    ) -> Result<(), ScenarioError>
        ensures { Becomes (with_line number line.now self.old) self.new result }
    {
        let Some(item) = item_of(alloc, self.quoted, line)? else {
            return Err(fault_at(number, FaultKind::Quoted));
        };
        self.items.push((number, item))?;
        Ok(())
    }

    /// Whether two sections have the same name.
    pub(crate) fn is_same(&self, kind: Kind, path: &str) -> bool
        ensures { result ≡ is_same_section kind path.now self.now }
    {
        self.kind.is(kind) && self.path.as_str() == path
    }

    /// The bytes that the lines stand for: those of each line and a line feed, or those of quoted
    /// lines alone.
    pub(crate) fn content(&self, alloc: Global) -> Result<List<u8>, AllocError>
        ensures { IfOk result (λ bytes. bytes ≡ content_of self.now) }
    {
        let mut bytes = Vec::new(alloc);
        for item in self.items.as_slice() {
            bytes.extend_from_slice(item.1.as_slice())?;
            if !self.quoted {
                bytes.push(b'\n')?;
            }
        }
        Ok(List::from_vec(bytes))
    }
}
