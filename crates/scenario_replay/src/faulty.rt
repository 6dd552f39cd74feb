//! A run in which one call failed, beside what its cause allows.
use crate::compare::{bytes_in, compare_kept, compare_paths, compare_status};
use crate::differences::{Differences, is_same};
use crate::one_run::OneRun;
use scenario_reader::{Device, Scenario};
use std::alloc::{AllocError, Global};

fn is_front(wanted: &[u8], got: &[u8]) -> bool {
    got.len() <= wanted.len() && got == &wanted[..got.len()]
}

/// A file that is to be put is as before or as it is wanted.
fn compare_put(
    differences: &mut Differences,
    run: &OneRun,
    path: &str,
    before: Option<&[u8]>,
    wanted: &[u8],
) -> Result<(), AllocError> {
    let got = run.file(path);
    if is_same(before, got) || is_same(Some(wanted), got) {
        return Ok(());
    }
    differences.add_other(&["file ", path], "as before, or as wanted", got)
}

/// Each file that is to be put.
fn compare_changed(
    differences: &mut Differences,
    run: &OneRun,
    scenario: &Scenario,
) -> Result<(), AllocError> {
    for file in scenario.changed.as_slice() {
        let path = file.0.as_str();
        let before = bytes_in(scenario.files.as_slice(), path);
        compare_put(differences, run, path, before, file.1.as_slice())?;
    }
    Ok(())
}

/// A reading failed: no file is put, nothing is said on the output, and this line is said.
fn compare_unread(
    differences: &mut Differences,
    run: &OneRun,
    line: &[u8],
) -> Result<(), AllocError> {
    compare_status(differences, run, "ReadFault")?;
    differences.compare(&["err"], line, run.err.said())?;
    differences.compare(&["out"], b"", run.out.said())?;
    compare_paths(differences, run, &[])
}

/// A put or a saying failed, and this line is said.
fn compare_unwritten(
    differences: &mut Differences,
    run: &OneRun,
    scenario: &Scenario,
    line: &[u8],
) -> Result<(), AllocError> {
    compare_status(differences, run, "WriteFault")?;
    differences.compare(&["err"], line, run.err.said())?;
    if !is_front(scenario.out.as_slice(), run.out.said()) {
        differences.add_other(&["out"], "a front of what is wanted", Some(run.out.said()))?;
    }
    compare_paths(differences, run, scenario.changed.as_slice())?;
    compare_changed(differences, run, scenario)
}

/// A call of the desk failed.
fn compare_desk_fault(
    alloc: Global,
    differences: &mut Differences,
    run: &OneRun,
    scenario: &Scenario,
) -> Result<(), AllocError> {
    if let Some(path) = &run.desk.failed_reading {
        let line = format!(in alloc; "read fault: {path}\n")?;
        return compare_unread(differences, run, line.as_bytes());
    }
    if let Some(path) = &run.desk.failed_put {
        let line = format!(in alloc; "write fault: {path}\n")?;
        return compare_unwritten(differences, run, scenario, line.as_bytes());
    }
    Ok(())
}

/// A run in which the call of `device` failed, and no other.
pub(crate) fn compare_faulty(
    alloc: Global,
    differences: &mut Differences,
    run: &OneRun,
    scenario: &Scenario,
    device: Device,
) -> Result<(), AllocError> {
    compare_kept(differences, run, scenario)?;
    match device {
        Device::FailOut(_) => {
            compare_unwritten(differences, run, scenario, b"write fault: output\n")
        }
        Device::FailErr(_) => compare_unwritten(differences, run, scenario, b""),
        _ => compare_desk_fault(alloc, differences, run, scenario),
    }
}
