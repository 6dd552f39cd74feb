//! The run of `zlib`: what it is given, what it has to answer and to say, and what it must leave.
use concretizer::Status;
use outside_desk::MemoryDesk;
use std::alloc::{AllocError, Global};
use std::process::Abort;

pub const RECIPE_PATH: &str = "r/packages/zlib/package.py";

pub const ZLIB: &[u8] = b"class Zlib(Package):\n    version(\"1.2.11\")\n    version(\"1.3\")\n";

pub const ZLIB_WORDS: &[&str] = &["concretize", "r", "-", "-", "l", "-", "zlib"];

/// The node and the cost vector of `zlib`.
pub const ZLIB_OUT: &[u8] =
    b"zlib@=1.3 %gcc@=12.3.0 os=ubuntu22.04 target=x86_64 built\nvector 0 0 0 0 0 0 0 0 0 0 0 0 0 0 0 1 0 0 0 0 0 0 0 0 0 0 0 0 0 0 0\n";

/// The lock file of `zlib`. Its hash was made by python3 as
/// `base64.b32encode(hashlib.sha256(text).digest()[:20]).decode().lower()`, where text is
/// `{"compiler":{"name":"gcc","version":"12.3.0"},"dependencies":[],"external":null,"name":"zlib","os":"ubuntu22.04","target":"x86_64","variants":{},"version":"1.3"}`.
pub const ZLIB_LOCK: &[u8] =
    b"{\"nodes\":[{\"compiler\":{\"name\":\"gcc\",\"version\":\"12.3.0\"},\"dependencies\":[],\"entry\":null,\"external\":null,\"hash\":\"znocxg336gv6bokpvmhn4o3yuexl563j\",\"name\":\"zlib\",\"origin\":\"built\",\"os\":\"ubuntu22.04\",\"target\":\"x86_64\",\"variants\":{},\"version\":\"1.3\"}],\"providers\":{},\"roots\":[{\"hash\":\"znocxg336gv6bokpvmhn4o3yuexl563j\",\"spec\":\"zlib\"}],\"version\":2}\n";

pub fn words_of(alloc: Global, texts: &[&str]) -> Result<Vec<String>, AllocError> {
    let mut words = Vec::new(alloc);
    for text in texts {
        words.push(String::from_str(alloc, text)?)?;
    }
    Ok(words)
}

/// The answer of a run that is Done, and what it says.
pub fn check_done(rt: &impl Abort, status: Status, out: &[u8], err: &[u8]) {
    assert_eq!(rt; status, Status::Done);
    assert_eq!(rt; out, ZLIB_OUT);
    assert_eq!(rt; err, b"".as_slice());
}

/// Files other than `l` that no run may make.
pub const NO_FILES: &[&str] = &[
    "-",
    "s",
    "d",
    "c",
    "r",
    "",
    "l.tmp",
    "r/l",
    "r/packages/zlib/l",
    "r/packages/nosuch/package.py",
];

/// Whether a desk has these bytes at a path, or has no file there.
pub fn holds(desk: &MemoryDesk, path: &str, wanted: Option<&[u8]>) -> bool {
    match (desk.file(path), wanted) {
        (Some(got), Some(bytes)) => got == bytes,
        (None, None) => true,
        _ => false,
    }
}
