//! The file that a launcher reads while it waits for a run.

use concretizer::{Progress, Stage};
use std::alloc::{AllocError, Global};
use std::env::Env;
use std::io::{Error, Write};
use std::rt::Files;
use std::{env, fs};

/// The variable of the environment that names the file.
const FILE: &str = "SPACK_CONCRETIZE_STAGE";

/// A file of the machine that holds the stage of a run as one line, where the environment names
/// one.
///
/// A writing that fails is passed over, as want of memory for its text: the run goes on.
#[derive(Drop)]
pub struct StageFile<'a, R> {
    rt: &'a R,
    path: Option<String>,
}

impl<'a, R: Env + Files + AllocGlobal> StageFile<'a, R> {
    /// The file that the environment names, or none.
    pub fn new(rt: &'a R) -> StageFile<'a, R> {
        StageFile {
            rt,
            path: env::var(rt, FILE).ok(),
        }
    }

    /// Has the file at a path hold the stage alone.
    fn write(&self, path: &str, stage: Stage) -> Result<(), Error> {
        let line = line_of(self.rt.alloc(), stage)?;
        fs::create(self.rt, path)?.write_all(line.as_bytes())
    }
}

impl<'a, R: Env + Files + AllocGlobal> Progress for StageFile<'a, R> {
    fn tell(&mut self, stage: Stage) {
        if let Some(path) = &self.path {
            let _written = self.write(path.as_str(), stage);
        }
    }
}

/// A stage in words.
fn line_of(alloc: Global, stage: Stage) -> Result<String, AllocError> {
    match stage {
        Stage::Reading => String::from_str(alloc, "reading\n"),
        Stage::Checking => String::from_str(alloc, "reading and checking\n"),
        Stage::Encoding { packages } => {
            format!(in alloc; "encoding {packages} possible packages\n")
        }
        Stage::Searching { variables, clauses } => {
            format!(in alloc; "searching {clauses} clauses over {variables} variables\n")
        }
        Stage::Settling {
            settled,
            numbers,
            learnt,
        } => {
            format!(in alloc;
                "searching: {settled} of {numbers} numbers, {learnt} clauses learnt\n"
            )
        }
        Stage::Writing => String::from_str(alloc, "writing\n"),
    }
}
