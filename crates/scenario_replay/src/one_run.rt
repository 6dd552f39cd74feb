//! One run of a scenario, over devices in memory.
use crate::watched_desk::WatchedDesk;
use concretizer::{Log, Status, Untold, run};
use outside_desk::{MemoryDesk, MemorySink};
use plain_data::Word;
use scenario_reader::{Device, Scenario};
use std::alloc::{AllocError, Global};
use std::thread::Threads;

/// A run, and what it left.
#[derive(Drop)]
pub(crate) struct OneRun {
    pub status: Status,
    pub desk: WatchedDesk<MemoryDesk>,
    pub out: MemorySink,
    pub err: MemorySink,
}

impl OneRun {
    /// A run that has not begun, over a desk that gives so many bytes at most.
    pub(crate) fn new(alloc: Global, pieces: usize) -> OneRun {
        OneRun {
            status: Status::NoMemory,
            desk: WatchedDesk::new(alloc, MemoryDesk::new(alloc), pieces),
            out: MemorySink::new(alloc),
            err: MemorySink::new(alloc),
        }
    }

    /// The bytes of a file after the run.
    pub(crate) fn file(&self, path: &str) -> Option<&[u8]> {
        self.desk.desk.file(path)
    }

    /// Whether a call of some device failed.
    pub(crate) fn has_fault(&self) -> bool {
        self.desk.desk.faults() > 0
            || self.desk.desk.put_faults() > 0
            || self.out.faults() > 0
            || self.err.faults() > 0
    }

    /// Lets a call fail.
    fn fail(&mut self, device: Device) -> Result<(), AllocError> {
        match device {
            Device::Fail(call) => self.desk.desk.fail_call(call),
            Device::FailOut(call) => self.out.fail_call(call),
            Device::FailErr(call) => self.err.fail_call(call),
            Device::Pieces(_) | Device::EveryCall => Ok(()),
        }
    }

    /// Puts the files on the desk, and lets calls fail.
    fn prepare(&mut self, scenario: &Scenario, failing: &[Device]) -> Result<(), AllocError> {
        for file in scenario.files.as_slice() {
            self.desk.desk.add(file.0.as_str(), file.1.as_slice())?;
        }
        for device in failing {
            self.fail(*device)?;
        }
        Ok(())
    }

    /// Runs a scenario; the calls of `failing` fail. The run has not begun before.
    pub(crate) fn go<R: Threads + Sync>(
        &mut self,
        rt: &R,
        alloc: Global,
        scenario: &Scenario,
        failing: &[Device],
    ) -> Result<(), AllocError> {
        self.prepare(scenario, failing)?;
        let words = words_of(alloc, scenario.words.as_slice())?;
        self.status = run(
            rt,
            alloc,
            &words,
            &mut self.desk,
            &mut self.out,
            &mut self.err,
            &mut Log::new(alloc),
            &mut Untold,
        );
        Ok(())
    }
}

fn words_of(alloc: Global, words: &[Word]) -> Result<Vec<String>, AllocError> {
    let mut texts = Vec::new(alloc);
    for word in words {
        texts.push(String::from_str(alloc, word.as_str())?)?;
    }
    Ok(texts)
}
