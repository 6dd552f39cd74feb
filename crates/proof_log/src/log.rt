//! A log: what was learnt, which bits are settled, and how it ended.
ghost use Rattle.std.specs.Prelude.{◌≡◌, [], ◌∷◌, ◌++◌, OnOk, OnErr};

use crate::Line;
use std::alloc::{AllocError, Global};
use std::marker::Model;

/// The lines of a search or of a certificate, seen as the list of them.
///
/// Any line may follow any other: whether a log is sound is a fact of the list.
#[derive(Drop)]
pub struct Log {
    lines: Vec<Line>,
}

impl Model for Log {
    ghost use Rattle.std.specs.Prelude.{List};
    ghost use Rattle.proof_log.specs.declared.line.Line.{Line};

    ghost Value = { List Line };

    ghost view = { λ l. l.lines.items };
}

impl Log {
    /// No line yet.
    pub fn new(alloc: Global) -> Log
        ensures { result ≡ [] }
    {
        Log {
            lines: Vec::new(alloc),
        }
    }

    /// One more line. After an error the log is as it was.
    pub fn push(&mut self, line: Line) -> Result<(), AllocError>
        ensures ok { OnOk result (self.new ≡ self.old ++ line ∷ []) }
        ensures err { OnErr result (self.new ≡ self.old) }
    {
        self.lines.push(line)?;
        Ok(())
    }

    /// The lines so far.
    pub fn lines(&self) -> &[Line]
        ensures { result.now ≡ self.now }
    {
        self.lines.as_slice()
    }
}
