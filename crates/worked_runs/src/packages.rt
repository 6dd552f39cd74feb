//! Runs in which specs lead to as many packages as they may, and to one more.
use crate::checks::words_of;
use concretizer::{Log, Status, run_steady};
use outside_desk::{SteadyDesk, SteadySink};
use std::alloc::{AllocError, Global};
use std::process::Abort;
use std::test::Fail;
use std::thread::Threads;

const JUDGE_WORDS: &[&str] = &["judge", "r", "-", "-", "l", "root"];

/// A package that needs so many others under a condition that never holds, and fifty that nothing
/// has.
fn root_of(alloc: Global, others: usize) -> Result<String, AllocError> {
    let mut text = String::from_str(alloc, "class Root(Package):\n    version(\"1\")\n")?;
    for number in 0..others {
        text.push_str(format!(in alloc; "    depends_on(\"p{number}\", when=\"@2\")\n")?.as_str())?;
    }
    for number in 0..50 {
        text.push_str(format!(in alloc; "    depends_on(\"none{number}\")\n")?.as_str())?;
    }
    Ok(text)
}

/// Recipes of as many names, which `root` leads to.
fn desk_of(alloc: Global, names: usize) -> Result<SteadyDesk, AllocError> {
    let others = names.saturating_sub(1);
    let mut desk = SteadyDesk::new(alloc);
    for number in 0..others {
        let path = format!(in alloc; "r/packages/p{number}/package.py")?;
        desk.add(path.as_str(), b"class P(Package):\n    version(\"1\")\n")?;
    }
    let root = root_of(alloc, others)?;
    desk.add("r/packages/root/package.py", root.as_str().as_bytes())?;
    Ok(desk)
}

/// Judges a lock file, where there is one, and wants this answer.
fn check_names<R: AllocGlobal + Abort + Threads + Sync>(
    rt: &R,
    names: usize,
    lock: Option<&[u8]>,
    wanted: Status,
    told: &[u8],
) -> Result<(), Fail> {
    let alloc = rt.alloc();
    let words = words_of(alloc, JUDGE_WORDS)?;
    let mut desk = desk_of(alloc, names)?;
    if let Some(lock) = lock {
        desk.add("l", lock)?;
    }
    let mut out = SteadySink::new(alloc);
    let mut err = SteadySink::new(alloc);
    let mut kept = Log::new(alloc);
    let status = run_steady(rt, alloc, &words, &mut desk, &mut out, &mut err, &mut kept);
    assert!(rt; kept.lines().is_empty());
    assert_eq!(rt; status, wanted);
    assert_eq!(rt; err.said(), told);
    assert_eq!(rt; out.said(), b"".as_slice());
    Ok(())
}

#[test]
fn one_package_too_many_is_told_before_the_lock_file_is_read(rt: HostRuntime) -> Result<(), Fail> {
    let too_many: &[u8] = b"too large: packages\n";
    check_names(&rt, 1024, None, Status::BadInput, b"bad input: missing l\n")?;
    check_names(
        &rt,
        1024,
        Some(b"{"),
        Status::BadInput,
        b"bad input: lock: NotJson\n",
    )?;
    check_names(&rt, 1025, None, Status::TooLarge, too_many)?;
    check_names(&rt, 1025, Some(b"{"), Status::TooLarge, too_many)
}
