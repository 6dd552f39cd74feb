// The desk of the machine, in folders below the one that the tests run in.
use crate::desks::{PIECES, check_list, check_piece};
use crate::same::check_same;
use crate::whole_files::check_whole;
use outside_desk::{Desk, DeskFault, ReadFault, RealDesk, file_id};
use std::alloc::Global;
use std::fs;
use std::fs::Permissions;
use std::os::unix::fs::{PermissionsExt, symlink};
use std::process::Abort;
use std::rt::Files;
use std::test::Fail;

const REAL_WHOLES: &[(&str, u64, Result<&[u8], ReadFault>)] = &[
    ("real_desk/b.yaml", 5, Ok(b"hello")),
    ("real_desk/b.yaml", 4, Err(ReadFault::TooLong)),
    ("real_desk/none", 9, Err(ReadFault::Missing)),
    ("real_desk/none/x", 9, Err(ReadFault::Missing)),
    ("real_desk/b-c/x", 9, Err(ReadFault::Missing)),
    ("real_desk/b", 9, Err(ReadFault::Failed)),
];

const REAL_PATHS: &[&str] = &["real_desk/b.yaml", "real_desk/b-c"];

const NO_REAL_FOLDERS: &[&str] = &["real_desk/none", "real_desk/b-c", "real_desk/b"];

const NO_REAL_PATHS: &[&str] = &["real_desk/none/x", "real_desk/b"];

/// Puts files into a folder that has the folder `b`, and lists it.
fn check_real_puts<D: Desk>(rt: &impl Abort, alloc: Global, desk: &mut D) -> Result<(), Fail> {
    for row in REAL_PATHS {
        let path = *row;
        for bytes in [b"longer than hello".as_slice(), b"hello".as_slice()] {
            let put = desk.put(alloc, path, bytes);
            check_same(rt, &(path, bytes, put), &(path, bytes, Ok(())));
        }
    }
    check_list(rt, alloc, desk, "real_desk", &["b", "b-c", "b.yaml"])
}

/// Reads these files.
fn check_real_files<D: Desk>(rt: &impl Abort, alloc: Global, desk: &mut D) -> Result<(), Fail> {
    for row in PIECES {
        check_piece(rt, alloc, desk, "real_desk/b-c", *row)?;
    }
    for row in REAL_WHOLES {
        check_whole(rt, alloc, desk, *row);
    }
    Ok(())
}

/// Asks for folders that are not there or have no names, and for files that are not there.
fn check_real_faults<D: Desk>(rt: &impl Abort, alloc: Global, desk: &mut D) {
    for row in NO_REAL_FOLDERS {
        let folder = *row;
        let missing = desk.list(alloc, folder).err();
        check_same(rt, &(folder, missing), &(folder, Some(DeskFault::Missing)));
    }
    for row in NO_REAL_PATHS {
        let path = *row;
        let got = desk.put(alloc, path, b"1");
        check_same(rt, &(path, got), &(path, Err(DeskFault::Failed)));
    }
}

/// Files of the machine, in a folder below the one that the test runs in.
#[test]
fn desks_of_the_machine(rt: HostRuntime) -> Result<(), Fail> {
    let alloc = rt.alloc();
    let _ = fs::remove_dir_all(&rt, "real_desk");
    fs::create_dir(&rt, "real_desk")?;
    fs::create_dir(&rt, "real_desk/b")?;
    let mut desk = RealDesk::new(&rt);
    check_real_puts(&rt, alloc, &mut desk)?;
    check_real_files(&rt, alloc, &mut desk)?;
    check_real_faults(&rt, alloc, &mut desk);
    fs::remove_dir_all(&rt, "real_desk")?;
    Ok(())
}

/// The text of a file of the machine.
fn check_text(
    rt: &(impl Files + AllocGlobal + Abort),
    path: &str,
    wanted: &str,
) -> Result<(), Fail> {
    let got = fs::read_to_string(rt, path)?;
    check_same(rt, &(path, got.as_str()), &(path, wanted));
    Ok(())
}

/// Links, with what they hold, and what they lead to in the end.
const LINKS: &[(&str, &str, &str)] = &[
    ("linked/one", "file", "linked/file"),
    ("linked/two", "one", "linked/file"),
    ("linked/up", "../linked/two", "linked/file"),
    ("linked/dangling", "new", "linked/new"),
];

/// A put to a link replaces the file that it leads to, and keeps its permissions.
#[test]
fn links_of_the_machine(rt: HostRuntime) -> Result<(), Fail> {
    let alloc = rt.alloc();
    let _ = fs::remove_dir_all(&rt, "linked");
    fs::create_dir(&rt, "linked")?;
    fs::write(&rt, "linked/file", "old")?;
    fs::set_permissions(&rt, "linked/file", Permissions::from_mode(0o640))?;
    let mut desk = RealDesk::new(&rt);
    for row in LINKS {
        let (path, to, file) = *row;
        symlink(&rt, to, path)?;
        let put = desk.put(alloc, path, path.as_bytes());
        check_same(&rt, &(path, put), &(path, Ok(())));
        check_text(&rt, file, path)?;
        assert!(rt; fs::symlink_metadata(&rt, path)?.is_symlink(), "{path}");
        assert!(rt;
            file_id(alloc, &rt, path) == file_id(alloc, &rt, file),
            "{path}"
        );
    }
    let mode = fs::metadata(&rt, "linked/file")?.permissions().mode() & 0o777;
    assert_eq!(rt; mode, 0o640);
    let wanted = ["dangling", "file", "new", "one", "two", "up"];
    check_list(&rt, alloc, &mut desk, "linked", &wanted)?;
    fs::remove_dir_all(&rt, "linked")?;
    Ok(())
}

/// Two paths, and whether a put to them is to one file: `ids/a` and its hard link `ids/b` stand,
/// and `ids/none` does not.
const IDS: &[(&str, &str, bool)] = &[
    ("ids/a", "ids/a", true),
    ("ids/a", "./ids/../ids/a", true),
    ("ids/a", "ids/b", true),
    ("ids/a", "ids/c", false),
    ("ids/a", "ids/none", false),
    ("ids/none", "ids/./none", true),
    ("ids/none", "ids/none2", false),
    ("ids/none", "none", false),
];

/// Paths that lead to one file.
#[test]
fn files_of_the_machine_are_told_apart(rt: HostRuntime) -> Result<(), Fail> {
    let alloc = rt.alloc();
    let _ = fs::remove_dir_all(&rt, "ids");
    fs::create_dir(&rt, "ids")?;
    fs::write(&rt, "ids/a", "a")?;
    fs::write(&rt, "ids/c", "c")?;
    fs::hard_link(&rt, "ids/a", "ids/b")?;
    for row in IDS {
        let (one, other, wanted) = *row;
        let got = file_id(alloc, &rt, one)? == file_id(alloc, &rt, other)?;
        check_same(&rt, &(one, other, got), &(one, other, wanted));
    }
    assert!(rt; file_id(alloc, &rt, "ids") == Err(DeskFault::Failed));
    assert!(rt; file_id(alloc, &rt, "ids/x/y") == Err(DeskFault::Missing));
    fs::remove_dir_all(&rt, "ids")?;
    Ok(())
}

/// Names that other runs took, or left when they were killed, are passed over and stay; a put that
/// fails leaves nothing.
#[test]
fn names_beside_a_file_of_the_machine(rt: HostRuntime) -> Result<(), Fail> {
    let alloc = rt.alloc();
    let _ = fs::remove_dir_all(&rt, "beside");
    fs::create_dir(&rt, "beside")?;
    fs::create_dir(&rt, "beside/folder")?;
    fs::write(&rt, "beside/.spack_concretize-0.tmp", "a stale text")?;
    let mut desk = RealDesk::new(&rt);
    assert!(rt; desk.put(alloc, "beside/l", b"new") == Ok(()));
    assert!(rt; desk.put(alloc, "beside/folder", b"new") == Err(DeskFault::Failed));
    assert!(rt; desk.put(alloc, "beside/", b"new") == Err(DeskFault::Failed));
    check_text(&rt, "beside/l", "new")?;
    check_text(&rt, "beside/.spack_concretize-0.tmp", "a stale text")?;
    let wanted = [".spack_concretize-0.tmp", "folder", "l"];
    check_list(&rt, alloc, &mut desk, "beside", &wanted)?;
    fs::remove_dir_all(&rt, "beside")?;
    Ok(())
}

fn put_many<D: Desk>(rt: &impl Abort, alloc: Global, desk: &mut D) -> Result<(), Fail> {
    for k in 0..500u32 {
        let path = format!(in alloc; "long_folder/a_rather_long_name_of_a_file_{k:03}")?;
        let put = desk.put(alloc, path.as_str(), b"x");
        check_same(rt, &(path.as_str(), put), &(path.as_str(), Ok(())));
    }
    Ok(())
}

fn check_many(rt: &impl Abort, alloc: Global, names: &[String]) -> Result<(), Fail> {
    assert_eq!(rt; names.len(), 500);
    for (k, name) in names.iter().enumerate() {
        let wanted = format!(in alloc; "a_rather_long_name_of_a_file_{k:03}")?;
        assert_eq!(rt; name.as_str(), wanted.as_str());
    }
    Ok(())
}

/// A folder of more names than one reading of it gives.
#[test]
fn long_folders_of_the_machine(rt: HostRuntime) -> Result<(), Fail> {
    let alloc = rt.alloc();
    let _ = fs::remove_dir_all(&rt, "long_folder");
    fs::create_dir(&rt, "long_folder")?;
    let mut desk = RealDesk::new(&rt);
    put_many(&rt, alloc, &mut desk)?;
    let names = desk.list(alloc, "long_folder")?;
    check_many(&rt, alloc, &names)?;
    fs::remove_dir_all(&rt, "long_folder")?;
    Ok(())
}
