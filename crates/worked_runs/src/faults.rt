//! A run in which memory runs out.
use crate::checks::{
    NO_FILES, RECIPE_PATH, ZLIB, ZLIB_LOCK, ZLIB_WORDS, check_done, holds, words_of,
};
use concretizer::{Log, Status, Untold, run};
use outside_desk::{MemoryDesk, MemorySink};
use std::alloc::{AllocError, Global};
use std::process::Abort;
use std::test::Fail;
use std::thread::Threads;

/// What stands at `l` before a run.
const OLD_LOCK: &[u8] = b"an older lock file\n";

/// A desk of the recipe and an older lock file.
fn zlib_desk(alloc: Global) -> Result<MemoryDesk, AllocError> {
    let mut desk = MemoryDesk::new(alloc);
    desk.add(RECIPE_PATH, ZLIB)?;
    desk.add("l", OLD_LOCK)?;
    Ok(desk)
}

fn use_up(alloc: Global, used: u32) -> Result<(), AllocError> {
    for _ in 0..used {
        let _text = String::from_str(alloc, "x")?;
    }
    Ok(())
}

/// A run without memory says nothing, or that there is none. The lock file is as it was, or whole.
fn check_no_memory<R: Print + Abort>(
    rt: &R,
    desk: &MemoryDesk,
    out: &[u8],
    err: &[u8],
) -> Result<(), Fail> {
    assert_eq!(rt; out, b"".as_slice());
    assert!(rt;
        err.is_empty() || err == b"no memory\n".as_slice(),
        "the errors"
    );
    let is_old = holds(desk, "l", Some(OLD_LOCK));
    assert!(rt;
        is_old || holds(desk, "l", Some(ZLIB_LOCK)),
        "the lock file"
    );
    let text = if is_old { "old" } else { "new" };
    let told = if err.is_empty() { "untold" } else { "told" };
    println!(rt; "seen: NoMemory {told}, {text} lock file")?;
    Ok(())
}

fn check_other_files(rt: &impl Abort, desk: &MemoryDesk) {
    assert!(rt; holds(desk, RECIPE_PATH, Some(ZLIB)), "the recipe");
    for row in NO_FILES {
        let other = *row;
        assert!(rt; holds(desk, other, None), "{other:?}");
    }
}

/// Uses up as many allocations, runs `zlib`, and wants Done with everything right, or NoMemory with
/// every file but the lock file as it was, and that as it was or whole.
///
/// `bench/fail_alloc.sh` runs it with each allocation failing in turn, and reads the line that it
/// prints.
pub fn check_zlib_or_no_memory<R: AllocGlobal + Print + Abort + Threads + Sync>(
    rt: &R,
    used: u32,
) -> Result<(), Fail> {
    let alloc = rt.alloc();
    use_up(alloc, used)?;
    let (Ok(words), Ok(mut desk)) = (words_of(alloc, ZLIB_WORDS), zlib_desk(alloc)) else {
        println!(rt; "seen: no memory for the test itself")?;
        return Ok(());
    };
    let mut out = MemorySink::new(alloc);
    let mut err = MemorySink::new(alloc);
    let mut kept = Log::new(alloc);
    let status = run(
        rt,
        alloc,
        &words,
        &mut desk,
        &mut out,
        &mut err,
        &mut kept,
        &mut Untold,
    );
    check_other_files(rt, &desk);
    if status == Status::NoMemory {
        check_no_memory(rt, &desk, out.said(), err.said())
    } else {
        check_done(rt, status, out.said(), err.said());
        assert!(rt; holds(&desk, "l", Some(ZLIB_LOCK)), "the lock file");
        println!(rt; "seen: Done")?;
        Ok(())
    }
}

#[test]
fn zlib_or_no_memory(rt: HostRuntime) -> Result<(), Fail> {
    check_zlib_or_no_memory(&rt, 0)
}
