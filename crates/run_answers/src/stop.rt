//! Why a reading or a writing stops.

ghost use Rattle.std.specs.Prelude.{◌≡◌, IfOk};
ghost use Rattle.std.specs.String.{string_bytes};
ghost use Rattle.run_answers.specs.declared.stop.ReadStop.TheVariants as reads;
ghost use Rattle.run_answers.specs.declared.stop.WriteStop.TheVariants as writes;
ghost use Rattle.run_answers.specs.declared.stop.Stop.TheVariants as stops;
ghost use Rattle.run_answers.specs.Stops.{stop_status, stop_line};
ghost use Rattle.run_answers.specs.Stops as lines;

use crate::refusal::Refusal;
use crate::status::Status;
use plain_data::Word;
use std::alloc::{AllocError, Global};

/// Why a reading stops.
#[derive(Debug, Drop)]
pub enum ReadStop {
    /// The input is refused.
    Refused(Refusal),
    /// The desk failed while the file at the path was read.
    Fault(Word),
    NoMemory,
}

/// Why a writing stops.
#[derive(Debug, Drop)]
pub enum WriteStop {
    /// The desk failed while the file at the path was put.
    Put(Word),
    /// The sink of the answer failed.
    Output,
    NoMemory,
}

impl ReadStop {
    /// A stop over the files of the root with this number: what is refused says which root.
    pub fn in_root(self, root: u64) -> ReadStop
        ensures { result ≡ lines.stop_in_root root self }
    {
        match self {
            ReadStop::Refused(refusal) => ReadStop::Refused(refusal.in_root(root)),
            ReadStop::Fault(path) => ReadStop::Fault(path),
            ReadStop::NoMemory => ReadStop::NoMemory,
        }
    }
}

impl From<AllocError> for ReadStop {
    ghost from_gives = { λ _ stop. stop ≡ reads.NoMemory };

    fn from(_: AllocError) -> ReadStop {
        ReadStop::NoMemory
    }
}

impl From<AllocError> for WriteStop {
    ghost from_gives = { λ _ stop. stop ≡ writes.NoMemory };

    fn from(_: AllocError) -> WriteStop {
        WriteStop::NoMemory
    }
}

/// Why a run stops.
#[derive(Debug, Drop)]
pub enum Stop {
    /// The words are no command.
    Usage,
    Read(ReadStop),
    Write(WriteStop),
}

impl From<AllocError> for Stop {
    ghost from_gives = { λ _ stop. stop ≡ stops.Read reads.NoMemory };

    fn from(_: AllocError) -> Stop {
        Stop::Read(ReadStop::NoMemory)
    }
}

impl From<ReadStop> for Stop {
    ghost from_gives = { λ read stop. stop ≡ stops.Read read };

    fn from(stop: ReadStop) -> Stop {
        Stop::Read(stop)
    }
}

impl From<WriteStop> for Stop {
    ghost from_gives = { λ write stop. stop ≡ stops.Write write };

    fn from(stop: WriteStop) -> Stop {
        Stop::Write(stop)
    }
}

impl Stop {
    /// The answer that it has.
    pub fn status(&self) -> Status
        ensures { result ≡ stop_status self.now }
    {
        match self {
            Stop::Usage => Status::Usage,
            Stop::Read(ReadStop::Refused(refusal)) => refusal.status(),
            Stop::Read(ReadStop::Fault(_)) => Status::ReadFault,
            Stop::Write(WriteStop::Put(_) | WriteStop::Output) => Status::WriteFault,
            Stop::Read(ReadStop::NoMemory) | Stop::Write(WriteStop::NoMemory) => Status::NoMemory,
        }
    }

    /// The line that is said of it.
    pub fn line(&self, alloc: Global) -> Result<String, AllocError>
        ensures { IfOk result (λ line. string_bytes line ≡ stop_line self.now) }
    {
        match self {
            Stop::Usage => usage_line(alloc),
            Stop::Read(ReadStop::Refused(refusal)) => refusal.line(alloc),
            Stop::Read(ReadStop::Fault(path)) => read_fault_line(alloc, path.as_str()),
            Stop::Write(WriteStop::Put(path)) => write_fault_line(alloc, path.as_str()),
            Stop::Write(WriteStop::Output) => output_fault_line(alloc),
            Stop::Read(ReadStop::NoMemory) | Stop::Write(WriteStop::NoMemory) => {
                no_memory_line(alloc)
            }
        }
    }
}

#[tactic(auto, unfolding(crate::specs::Stops::usage_line))]
fn usage_line(alloc: Global) -> Result<String, AllocError>
    ensures { IfOk result (λ line. string_bytes line ≡ lines.usage_line) }
{
    String::from_str(alloc, "usage: spack_concretize COMMAND ARGUMENT...\n")
}

#[tactic(auto, unfolding(crate::specs::Stops::read_fault_line))]
fn read_fault_line(alloc: Global, path: &str) -> Result<String, AllocError>
    ensures { IfOk result (λ line. string_bytes line ≡ lines.read_fault_line path.now) }
{
    format!(in alloc; "read fault: {path}\n")
}

#[tactic(auto, unfolding(crate::specs::Stops::write_fault_line))]
fn write_fault_line(alloc: Global, path: &str) -> Result<String, AllocError>
    ensures { IfOk result (λ line. string_bytes line ≡ lines.write_fault_line path.now) }
{
    format!(in alloc; "write fault: {path}\n")
}

#[tactic(auto, unfolding(crate::specs::Stops::output_fault_line))]
fn output_fault_line(alloc: Global) -> Result<String, AllocError>
    ensures { IfOk result (λ line. string_bytes line ≡ lines.output_fault_line) }
{
    String::from_str(alloc, "write fault: output\n")
}

#[tactic(auto, unfolding(crate::specs::Stops::no_memory_line))]
fn no_memory_line(alloc: Global) -> Result<String, AllocError>
    ensures { IfOk result (λ line. string_bytes line ≡ lines.no_memory_line) }
{
    String::from_str(alloc, "no memory\n")
}
