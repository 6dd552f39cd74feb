// Desks: what they read, list and put, and the calls of them that fail.
use crate::same::check_same;
use outside_desk::{Desk, DeskFault, MemoryDesk, SteadyDesk, read_whole};
use std::alloc::{AllocError, Global};
use std::process::Abort;
use std::test::Fail;

/// Where to read in a file of `hello`, how many bytes are asked for, and what is got.
pub(crate) const PIECES: &[(u64, usize, &[u8])] = &[
    (0, 5, b"hello"),
    (0, 2, b"he"),
    (0, 9, b"hello"),
    (1, 3, b"ell"),
    (2, 3, b"llo"),
    (4, 1, b"o"),
    (4, 3, b"o"),
    (5, 3, b""),
    (6, 3, b""),
    (u64::MAX, 3, b""),
    (0, 0, b""),
    (5, 0, b""),
];

/// Reads a piece of a file of `hello`.
pub(crate) fn check_piece<D: Desk>(
    rt: &impl Abort,
    alloc: Global,
    desk: &mut D,
    path: &str,
    (from, size, wanted): (u64, usize, &[u8]),
) -> Result<(), Fail> {
    let mut out = vec![in alloc; b'-'; size]?;
    let count = desk.read_at(alloc, path, from, out.as_mut_slice())?;
    let got = out.get(..count);
    check_same(rt, &(from, size, got), &(from, size, Some(wanted)));
    Ok(())
}

const NO_PATHS: &[&str] = &["d/g", "d", "d/", "d/f/", "/d/f", "f", "", "D/f"];

/// Reads pieces of the file `d/f`, which holds `hello`. No other file is there.
fn check_pieces<D: Desk>(rt: &impl Abort, alloc: Global, desk: &mut D) -> Result<(), Fail> {
    for row in PIECES {
        check_piece(rt, alloc, desk, "d/f", *row)?;
    }
    let mut out = [0u8; 4];
    for row in NO_PATHS {
        let path = *row;
        let got = desk.read_at(alloc, path, 0, &mut out);
        check_same(rt, &(path, got), &(path, Err(DeskFault::Missing)));
    }
    Ok(())
}

pub(crate) fn check_list<D: Desk>(
    rt: &impl Abort,
    alloc: Global,
    desk: &mut D,
    folder: &str,
    wanted: &[&str],
) -> Result<(), Fail> {
    let names = desk.list(alloc, folder)?;
    check_same(rt, &(folder, names.len()), &(folder, wanted.len()));
    for (name, other) in names.iter().zip(wanted) {
        check_same(rt, &(folder, name.as_str()), &(folder, *other));
    }
    Ok(())
}

const PUT_PATHS: &[&str] = &[
    "r/packages/b.yaml",
    "r/packages/b-c/package.py",
    "r/packages/b/package.py",
    "r/packages/b/a.patch",
    "r/repo.yaml",
    "rr/x",
];

const FOLDERS: &[(&str, &[&str])] = &[
    ("r/packages", &["b", "b-c", "b.yaml"]),
    ("r", &["packages", "repo.yaml"]),
    ("r/packages/b", &["a.patch", "package.py"]),
    ("rr", &["x"]),
];

const NO_FOLDERS: &[&str] = &["none", "r/pack", "r/packages/b.yaml", "r/packages/b-", "x"];

/// Puts files into a desk of no files, and lists its folders.
fn check_folders<D: Desk>(rt: &impl Abort, alloc: Global, desk: &mut D) -> Result<(), Fail> {
    for row in PUT_PATHS {
        let path = *row;
        let put = desk.put(alloc, path, b"1");
        check_same(rt, &(path, put), &(path, Ok(())));
    }
    for row in FOLDERS {
        let (folder, wanted) = *row;
        check_list(rt, alloc, desk, folder, wanted)?;
    }
    for row in NO_FOLDERS {
        let folder = *row;
        let missing = desk.list(alloc, folder).err();
        check_same(rt, &(folder, missing), &(folder, Some(DeskFault::Missing)));
    }
    Ok(())
}

const PUTS: &[&[u8]] = &[b"first", b"", b"a longer text\n\0\xff", b"x"];

/// Puts a file again and again, and reads it back.
fn check_puts<D: Desk>(rt: &impl Abort, alloc: Global, desk: &mut D) -> Result<(), Fail> {
    for row in PUTS {
        let bytes = *row;
        let put = desk.put(alloc, "p", bytes);
        check_same(rt, &(bytes, put), &(bytes, Ok(())));
        let got = read_whole(alloc, desk, "p", 20)?;
        check_same(rt, &got.as_slice(), &bytes);
    }
    Ok(())
}

fn check_memory(rt: &impl Abort, alloc: Global) -> Result<(), Fail> {
    let mut desk = MemoryDesk::new(alloc);
    desk.add("d/f", b"old")?;
    desk.add("d/f", b"hello")?;
    check_pieces(rt, alloc, &mut desk)?;
    check_folders(rt, alloc, &mut desk)?;
    check_puts(rt, alloc, &mut desk)?;
    assert!(rt; desk.file("d/f") == Some(b"hello".as_slice()));
    assert!(rt; desk.file("p") == Some(b"x".as_slice()));
    assert!(rt; desk.file("d").is_none());
    assert_eq!(rt; (desk.faults(), desk.put_faults()), (0, 0));
    Ok(())
}

fn check_steady(rt: &impl Abort, alloc: Global) -> Result<(), Fail> {
    let mut desk = SteadyDesk::new(alloc);
    desk.add("d/f", b"old")?;
    desk.add("d/f", b"hello")?;
    check_pieces(rt, alloc, &mut desk)?;
    check_folders(rt, alloc, &mut desk)?;
    check_puts(rt, alloc, &mut desk)?;
    assert!(rt; desk.file("d/f") == Some(b"hello".as_slice()));
    assert!(rt; desk.file("p") == Some(b"x".as_slice()));
    assert!(rt; desk.file("d").is_none());
    Ok(())
}

#[test]
fn desks_in_memory(rt: HostRuntime) -> Result<(), Fail> {
    check_memory(&rt, rt.alloc())?;
    check_steady(&rt, rt.alloc())
}

/// A desk of two files, whose calls of these numbers fail, or fail late.
fn failing_desk(alloc: Global, calls: &[u64], late: &[u64]) -> Result<MemoryDesk, AllocError> {
    let mut desk = MemoryDesk::new(alloc);
    desk.add("d/f", b"hello")?;
    desk.add("d/g", b"other")?;
    for call in calls {
        desk.fail_call(*call)?;
    }
    for call in late {
        desk.fail_late(*call)?;
    }
    Ok(desk)
}

/// The calls that fail, and those that fail late; whether the reading, the listing and the put
/// fail; the counts of failed readings and puts; what is left of the file.
type CallRow = (
    &'static [u64],
    &'static [u64],
    [bool; 3],
    u64,
    u64,
    &'static [u8],
);

const FAILING_CALLS: &[CallRow] = &[
    (&[], &[], [false, false, false], 0, 0, b"12345"),
    (&[0], &[], [true, false, false], 1, 0, b"12345"),
    (&[1], &[], [false, true, false], 1, 0, b"12345"),
    (&[2], &[], [false, false, true], 0, 1, b"hello"),
    (&[2, 0], &[], [true, false, true], 1, 1, b"hello"),
    (&[0, 1, 2], &[], [true, true, true], 2, 1, b"hello"),
    (&[3, 9], &[], [false, false, false], 0, 0, b"12345"),
    (&[], &[2], [false, false, true], 0, 1, b"12345"),
    (&[2], &[2], [false, false, true], 0, 1, b"hello"),
    (&[1], &[0, 1, 2], [false, true, true], 1, 1, b"12345"),
    (&[], &[0, 1, 3], [false, false, false], 0, 0, b"12345"),
];

/// What a call answers, which fails or not.
fn check_call(rt: &impl Abort, topic: &str, failing: &[u64], got: Option<DeskFault>, fails: bool) {
    let wanted = fails.then_some(DeskFault::Failed);
    check_same(rt, &(topic, failing, got), &(topic, failing, wanted));
}

fn check_left(
    rt: &impl Abort,
    desk: &MemoryDesk,
    failing: &[u64],
    counts: (u64, u64),
    left: &[u8],
) {
    let got = (desk.faults(), desk.put_faults());
    check_same(rt, &(failing, got), &(failing, counts));
    let other: &[u8] = b"other";
    for (path, wanted) in [("d/f", left), ("d/g", other)] {
        let got = desk.file(path);
        check_same(rt, &(failing, path, got), &(failing, path, Some(wanted)));
    }
}

fn check_failing_calls(rt: &impl Abort, alloc: Global, row: &CallRow) -> Result<(), Fail> {
    let (failing, late, [read, list, put], faults, put_faults, left) = *row;
    let mut desk = failing_desk(alloc, failing, late)?;
    let mut out = [0u8; 4];
    let got = desk.read_at(alloc, "d/f", 2, &mut out).err();
    check_call(rt, "reading", failing, got, read);
    let got = desk.list(alloc, "d").err();
    check_call(rt, "listing", failing, got, list);
    let got = desk.put(alloc, "d/f", b"12345").err();
    check_call(rt, "putting", failing, got, put);
    check_left(rt, &desk, failing, (faults, put_faults), left);
    Ok(())
}

/// Some of three calls fail: a reading, a listing, and a put of `12345` over a file of `hello`.
#[test]
fn calls_of_a_desk_fail(rt: HostRuntime) -> Result<(), Fail> {
    for row in FAILING_CALLS {
        check_failing_calls(&rt, rt.alloc(), row)?;
    }
    Ok(())
}
