// Files that are read whole, piece by piece.
use crate::one_byte_desk::OneByteDesk;
use crate::same::check_same;
use outside_desk::{Desk, MemoryDesk, ReadFault, SteadyDesk, read_whole};
use std::alloc::{AllocError, Global};
use std::process::Abort;
use std::test::Fail;

/// Files that are read whole, with the limit and what is got.
const WHOLES: &[(&str, u64, Result<&[u8], ReadFault>)] = &[
    ("f", 5, Ok(b"hello")),
    ("f", 6, Ok(b"hello")),
    ("f", u64::MAX, Ok(b"hello")),
    ("f", 4, Err(ReadFault::TooLong)),
    ("f", 0, Err(ReadFault::TooLong)),
    ("empty", 0, Ok(b"")),
    ("empty", 9, Ok(b"")),
    ("none", 0, Err(ReadFault::Missing)),
    ("none", 9, Err(ReadFault::Missing)),
];

pub(crate) fn check_whole<D: Desk>(
    rt: &impl Abort,
    alloc: Global,
    desk: &mut D,
    (path, limit, wanted): (&str, u64, Result<&[u8], ReadFault>),
) {
    let read = read_whole(alloc, desk, path, limit);
    let got = match &read {
        Ok(bytes) => Ok(bytes.as_slice()),
        Err(fault) => Err(*fault),
    };
    check_same(rt, &(path, limit, got), &(path, limit, wanted));
}

fn memory_files(alloc: Global, big: &[u8]) -> Result<MemoryDesk, AllocError> {
    let mut desk = MemoryDesk::new(alloc);
    desk.add("f", b"hello")?;
    desk.add("empty", b"")?;
    desk.add("big", big)?;
    Ok(desk)
}

fn steady_files(alloc: Global, big: &[u8]) -> Result<SteadyDesk, AllocError> {
    let mut desk = SteadyDesk::new(alloc);
    desk.add("f", b"hello")?;
    desk.add("empty", b"")?;
    desk.add("big", big)?;
    Ok(desk)
}

fn slow_files(alloc: Global, big: &[u8]) -> Result<OneByteDesk, AllocError> {
    let mut desk = OneByteDesk::new(alloc);
    desk.add("f", b"hello")?;
    desk.add("empty", b"")?;
    desk.add("big", big)?;
    Ok(desk)
}

/// Limits that are below the 40,000 bytes of a file.
const TOO_LOW: &[u64] = &[39999, 16384, 16383];

fn check_wholes<D: Desk>(rt: &impl Abort, alloc: Global, desk: &mut D, big: &[u8]) {
    for row in WHOLES {
        check_whole(rt, alloc, desk, *row);
    }
    check_whole(rt, alloc, desk, ("big", 40000, Ok(big)));
    for limit in TOO_LOW {
        let wanted = Err(ReadFault::TooLong);
        check_whole(rt, alloc, desk, ("big", *limit, wanted));
    }
}

#[test]
fn whole_files(rt: HostRuntime) -> Result<(), Fail> {
    let alloc = rt.alloc();
    let mut big = Vec::new(alloc);
    for i in 0..40000u32 {
        big.push((i % 251) as u8)?;
    }
    let mut memory = memory_files(alloc, &big)?;
    check_wholes(&rt, alloc, &mut memory, &big);
    assert_eq!(rt; (memory.faults(), memory.put_faults()), (0, 0));
    let mut steady = steady_files(alloc, &big)?;
    check_wholes(&rt, alloc, &mut steady, &big);
    let mut slow = slow_files(alloc, &big)?;
    check_wholes(&rt, alloc, &mut slow, &big);
    Ok(())
}

fn check_mid_stream(rt: &impl Abort, alloc: Global, big: &[u8], call: u64) -> Result<(), Fail> {
    let mut desk = memory_files(alloc, big)?;
    desk.fail_call(call)?;
    let failed = Err(ReadFault::Failed);
    check_whole(rt, alloc, &mut desk, ("big", 40000, failed));
    check_same(rt, &(call, desk.faults(), desk.put_faults()), &(call, 1, 0));
    check_whole(rt, alloc, &mut desk, ("big", 40000, Ok(big)));
    check_same(rt, &(call, desk.faults(), desk.put_faults()), &(call, 1, 0));
    Ok(())
}

/// A file of 40,000 bytes is read in some calls, of which one fails.
#[test]
fn whole_files_fail_in_mid_stream(rt: HostRuntime) -> Result<(), Fail> {
    let big = vec![in rt.alloc(); b'x'; 40000]?;
    for call in 0..3 {
        check_mid_stream(&rt, rt.alloc(), &big, call)?;
    }
    Ok(())
}
