//! A run again and again, with each call of each device failing in turn.
use crate::compare::compare_run;
use crate::differences::Differences;
use crate::faulty::compare_faulty;
use crate::one_run::OneRun;
use scenario_reader::{Device, Scenario};
use std::alloc::{AllocError, Global};
use std::thread::Threads;

/// A run with a call that fails; whether the run came to that call.
fn check_run<R: Threads + Sync>(
    rt: &R,
    alloc: Global,
    scenario: &Scenario,
    device: Device,
    run: &mut OneRun,
    differences: &mut Differences,
) -> Result<bool, AllocError> {
    run.go(rt, alloc, scenario, &[device])?;
    differences.begin_failing(device)?;
    if run.has_fault() {
        compare_faulty(alloc, differences, run, scenario, device)?;
        Ok(true)
    } else {
        compare_run(differences, run, scenario)?;
        Ok(false)
    }
}

/// The same, over new devices.
fn check_call<R: Threads + Sync>(
    rt: &R,
    alloc: Global,
    scenario: &Scenario,
    pieces: usize,
    device: Device,
    differences: &mut Differences,
) -> Result<bool, AllocError> {
    let mut run = OneRun::new(alloc, pieces);
    let checked = check_run(rt, alloc, scenario, device, &mut run, differences);
    drop(run);
    checked
}

/// The device whose call of that number fails.
fn device_of(kind: u8, call: u64) -> Device {
    match kind {
        0 => Device::Fail(call),
        1 => Device::FailOut(call),
        _ => Device::FailErr(call),
    }
}

/// The calls of all devices, each in turn, until the run comes to no such call.
pub(crate) fn check_every_call<R: Threads + Sync>(
    rt: &R,
    alloc: Global,
    scenario: &Scenario,
    pieces: usize,
    differences: &mut Differences,
) -> Result<(), AllocError> {
    for kind in 0..3 {
        for call in 0..u64::MAX {
            let device = device_of(kind, call);
            if !check_call(rt, alloc, scenario, pieces, device, differences)? {
                break;
            }
        }
    }
    Ok(())
}
