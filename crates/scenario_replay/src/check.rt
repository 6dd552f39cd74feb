//! The runs of one scenario, and what comes of them.
use crate::compare::compare_run;
use crate::comparison::Comparison;
use crate::differences::Differences;
use crate::every_call::check_every_call;
use crate::one_run::OneRun;
use scenario_reader::{Device, Scenario};
use std::alloc::{AllocError, Global};
use std::thread::Threads;

fn pieces_of(devices: &[Device]) -> Option<usize> {
    let mut pieces = None;
    for device in devices {
        if let Device::Pieces(bytes) = *device {
            pieces = usize::try_from(bytes).ok();
        }
    }
    pieces
}

fn is_failing(device: &Device) -> bool {
    matches!(
        *device,
        Device::Fail(_) | Device::FailOut(_) | Device::FailErr(_)
    )
}

/// A run with the scenario's own devices.
fn check_run<R: Threads + Sync>(
    rt: &R,
    alloc: Global,
    scenario: &Scenario,
    run: &mut OneRun,
    differences: &mut Differences,
) -> Result<(), AllocError> {
    run.go(rt, alloc, scenario, scenario.devices.as_slice())?;
    compare_run(differences, run, scenario)
}

/// The same, over new devices.
fn check_once<R: Threads + Sync>(
    rt: &R,
    alloc: Global,
    scenario: &Scenario,
    pieces: usize,
    differences: &mut Differences,
) -> Result<(), AllocError> {
    let mut run = OneRun::new(alloc, pieces);
    let checked = check_run(rt, alloc, scenario, &mut run, differences);
    drop(run);
    checked
}

/// Whether a scenario is run byte by byte too: no call fails, and no pieces are asked for.
fn is_plain(devices: &[Device]) -> bool {
    pieces_of(devices).is_none() && !devices.iter().any(is_failing)
}

/// All runs of a scenario. A plain one is run over whole files, and then byte by byte: how a desk
/// hands out its bytes changes nothing.
fn check_scenario<R: Threads + Sync>(
    rt: &R,
    alloc: Global,
    scenario: &Scenario,
    differences: &mut Differences,
) -> Result<(), AllocError> {
    let devices = scenario.devices.as_slice();
    let pieces = pieces_of(devices).unwrap_or(usize::MAX);
    if devices.contains(&Device::EveryCall) {
        return check_every_call(rt, alloc, scenario, pieces, differences);
    }
    differences.begin_plain();
    check_once(rt, alloc, scenario, pieces, differences)?;
    if is_plain(devices) && differences.is_empty() {
        differences.begin_bytes()?;
        check_once(rt, alloc, scenario, 1, differences)?;
    }
    Ok(())
}

/// What comes of a scenario, with what differs.
fn check_verdict<R: Threads + Sync>(
    rt: &R,
    alloc: Global,
    scenario: &Scenario,
    differences: &mut Differences,
) -> Result<Comparison, AllocError> {
    check_scenario(rt, alloc, scenario, differences)?;
    if differences.is_empty() {
        return Ok(Comparison::Same);
    }
    let text = String::from_str(alloc, differences.text())?;
    Ok(Comparison::Differs(text))
}

/// What comes of a scenario.
pub(crate) fn verdict_of<R: Threads + Sync>(
    rt: &R,
    alloc: Global,
    scenario: &Scenario,
) -> Result<Comparison, AllocError> {
    let mut differences = Differences::new(alloc);
    let comparison = check_verdict(rt, alloc, scenario, &mut differences);
    drop(differences);
    comparison
}
