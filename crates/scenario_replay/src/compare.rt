//! A run beside what its scenario wants.
use crate::differences::{Differences, is_same};
use crate::one_run::OneRun;
use crate::status_name::status_name;
use plain_data::{List, Word};
use scenario_reader::Scenario;
use std::alloc::AllocError;

type File = (Word, List<u8>);

/// The bytes of a file, where it is one of these.
pub(crate) fn bytes_in<'a>(files: &'a [File], path: &str) -> Option<&'a [u8]> {
    for file in files {
        if file.0.as_str() == path {
            return Some(file.1.as_slice());
        }
    }
    None
}

/// The answer of a run.
pub(crate) fn compare_status(
    differences: &mut Differences,
    run: &OneRun,
    wanted: &str,
) -> Result<(), AllocError> {
    let got = status_name(run.status);
    if wanted == got {
        return Ok(());
    }
    differences.add(&["status"], wanted, got)
}

/// A file after a run.
fn compare_file(
    differences: &mut Differences,
    run: &OneRun,
    path: &str,
    wanted: &[u8],
) -> Result<(), AllocError> {
    let got = run.file(path);
    if is_same(Some(wanted), got) {
        return Ok(());
    }
    differences.compare_file(path, Some(wanted), got)
}

/// How often a path was put.
fn count_of(puts: &[String], path: &str) -> usize {
    puts.iter().filter(|put| put.as_str() == path).count()
}

/// No file is put but these.
pub(crate) fn compare_paths(
    differences: &mut Differences,
    run: &OneRun,
    changed: &[File],
) -> Result<(), AllocError> {
    for path in run.desk.puts.as_slice() {
        if bytes_in(changed, path.as_str()).is_none() {
            differences.add(&["puts of ", path.as_str()], "none", "one")?;
        }
    }
    Ok(())
}

/// A file that is to be put is put once, and is then as it is wanted.
fn compare_put(
    differences: &mut Differences,
    run: &OneRun,
    path: &str,
    wanted: &[u8],
) -> Result<(), AllocError> {
    let count = count_of(run.desk.puts.as_slice(), path);
    if count != 1 {
        differences.add_count(&["puts of ", path], "1", count)?;
    }
    compare_file(differences, run, path, wanted)
}

/// The files before the run, but those that are to be put, are as they were.
pub(crate) fn compare_kept(
    differences: &mut Differences,
    run: &OneRun,
    scenario: &Scenario,
) -> Result<(), AllocError> {
    let changed = scenario.changed.as_slice();
    for file in scenario.files.as_slice() {
        if bytes_in(changed, file.0.as_str()).is_none() {
            compare_file(differences, run, file.0.as_str(), file.1.as_slice())?;
        }
    }
    Ok(())
}

/// A run whose answer, streams and files are those of the scenario.
pub(crate) fn compare_run(
    differences: &mut Differences,
    run: &OneRun,
    scenario: &Scenario,
) -> Result<(), AllocError> {
    compare_status(differences, run, scenario.status.as_str())?;
    differences.compare(&["out"], scenario.out.as_slice(), run.out.said())?;
    differences.compare(&["err"], scenario.err.as_slice(), run.err.said())?;
    compare_paths(differences, run, scenario.changed.as_slice())?;
    compare_kept(differences, run, scenario)?;
    for file in scenario.changed.as_slice() {
        compare_put(differences, run, file.0.as_str(), file.1.as_slice())?;
    }
    Ok(())
}
