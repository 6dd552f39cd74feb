//! What differs in the runs of one scenario.
use crate::shown::push_shown;
use scenario_reader::Device;
use std::alloc::{AllocError, Global};

/// What differs, as the lines that say so: no line where nothing does.
#[derive(Drop)]
pub(crate) struct Differences {
    /// What the run at hand is, beside the plain one.
    run: String,
    text: String,
}

fn push_all(text: &mut String, parts: &[&str]) -> Result<(), AllocError> {
    for part in parts {
        text.push_str(part)?;
    }
    Ok(())
}

impl Differences {
    pub(crate) fn new(alloc: Global) -> Differences {
        Differences {
            run: String::new(alloc),
            text: String::new(alloc),
        }
    }

    /// A plain run begins.
    pub(crate) fn begin_plain(&mut self) {
        self.run.clear();
    }

    /// A run byte by byte begins.
    pub(crate) fn begin_bytes(&mut self) -> Result<(), AllocError> {
        self.run.clear();
        self.run.push_str("byte by byte: ")
    }

    /// A run begins in which a call fails.
    pub(crate) fn begin_failing(&mut self, device: Device) -> Result<(), AllocError> {
        self.run.clear();
        match device {
            Device::Fail(call) => write!(&mut self.run, "fail {call}: "),
            Device::FailOut(call) => write!(&mut self.run, "fail-out {call}: "),
            Device::FailErr(call) => write!(&mut self.run, "fail-err {call}: "),
            Device::Pieces(_) | Device::EveryCall => Ok(()),
        }
    }

    pub(crate) fn is_empty(&self) -> bool {
        self.text.is_empty()
    }

    pub(crate) fn text(&self) -> &str {
        self.text.as_str()
    }

    /// Begins a line about what differs.
    fn begin(&mut self, what: &[&str]) -> Result<(), AllocError> {
        self.text.push_str("  ")?;
        self.text.push_str(self.run.as_str())?;
        push_all(&mut self.text, what)
    }

    /// Something differs.
    pub(crate) fn add(&mut self, what: &[&str], wanted: &str, got: &str) -> Result<(), AllocError> {
        self.begin(what)?;
        push_all(&mut self.text, &[": wanted ", wanted, ", got ", got, "\n"])
    }

    /// A count differs from the one that is wanted.
    pub(crate) fn add_count(
        &mut self,
        what: &[&str],
        wanted: &str,
        got: usize,
    ) -> Result<(), AllocError> {
        self.begin(what)?;
        push_all(&mut self.text, &[": wanted ", wanted])?;
        write!(&mut self.text, ", got {got}\n")
    }

    /// Bytes differ from those that are wanted.
    fn add_bytes(
        &mut self,
        wanted: Option<&[u8]>,
        got: Option<&[u8]>,
        none: &str,
    ) -> Result<(), AllocError> {
        self.text.push_str(": wanted ")?;
        push_shown(&mut self.text, wanted, none)?;
        self.text.push_str(", got ")?;
        push_shown(&mut self.text, got, none)?;
        self.text.push('\n')
    }

    /// A file differs, or one of the two is not there.
    pub(crate) fn compare_file(
        &mut self,
        path: &str,
        wanted: Option<&[u8]>,
        got: Option<&[u8]>,
    ) -> Result<(), AllocError> {
        match (wanted, got) {
            (Some(wanted), Some(got)) => self.compare(&["file ", path], wanted, got),
            (None, None) => Ok(()),
            _ => {
                self.begin(&["file ", path])?;
                self.add_bytes(wanted, got, "no file")
            }
        }
    }

    /// Bytes are none of those that are allowed.
    pub(crate) fn add_other(
        &mut self,
        what: &[&str],
        allowed: &str,
        got: Option<&[u8]>,
    ) -> Result<(), AllocError> {
        self.begin(what)?;
        push_all(&mut self.text, &[": wanted ", allowed, ", got "])?;
        push_shown(&mut self.text, got, "no file")?;
        self.text.push('\n')
    }

    /// Two texts are compared, and their first lines that differ are said.
    pub(crate) fn compare(
        &mut self,
        what: &[&str],
        wanted: &[u8],
        got: &[u8],
    ) -> Result<(), AllocError> {
        if wanted == got {
            return Ok(());
        }
        let mut wanted_lines = wanted.split(|b| *b == b'\n');
        let mut got_lines = got.split(|b| *b == b'\n');
        for number in 1..u64::MAX {
            let wanted_line = wanted_lines.next();
            let got_line = got_lines.next();
            if wanted_line.is_none() && got_line.is_none() {
                break;
            }
            if !is_same(wanted_line, got_line) {
                return self.add_line(what, number, wanted_line, got_line);
            }
        }
        Ok(())
    }

    fn add_line(
        &mut self,
        what: &[&str],
        number: u64,
        wanted: Option<&[u8]>,
        got: Option<&[u8]>,
    ) -> Result<(), AllocError> {
        self.begin(what)?;
        write!(&mut self.text, ", line {number}")?;
        self.add_bytes(wanted, got, "the end")
    }
}

/// Whether two are the same bytes, or none.
pub(crate) fn is_same(a: Option<&[u8]>, b: Option<&[u8]>) -> bool {
    match (a, b) {
        (Some(a), Some(b)) => a == b,
        (None, None) => true,
        _ => false,
    }
}
