//! A run over steady devices.
use crate::checks::{RECIPE_PATH, ZLIB, ZLIB_LOCK, ZLIB_WORDS, check_done, words_of};
use concretizer::{Log, run_steady};
use outside_desk::{SteadyDesk, SteadySink};
use std::test::Fail;

#[test]
fn zlib_is_concretized_over_steady_devices(rt: HostRuntime) -> Result<(), Fail> {
    let alloc = rt.alloc();
    let words = words_of(alloc, ZLIB_WORDS)?;
    let mut desk = SteadyDesk::new(alloc);
    desk.add(RECIPE_PATH, ZLIB)?;
    let mut out = SteadySink::new(alloc);
    let mut err = SteadySink::new(alloc);
    let mut kept = Log::new(alloc);
    let status = run_steady(&rt, alloc, &words, &mut desk, &mut out, &mut err, &mut kept);
    assert!(rt; !kept.lines().is_empty());
    check_done(&rt, status, out.said(), err.said());
    assert!(rt; desk.file("l") == Some(ZLIB_LOCK));
    assert!(rt; desk.file(RECIPE_PATH) == Some(ZLIB));
    Ok(())
}
