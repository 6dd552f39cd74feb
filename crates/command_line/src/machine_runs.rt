//! Runs over the machine's files, in a folder below the one that the tests run in: what each ends
//! with, and what goes to which stream.
use crate::{own_text, run_on_machine};
use std::alloc::{AllocError, Global};
use std::fs;
use std::process::ExitCode;
use std::test::Fail;

/// The words, the exit status, and what goes to the stream of the answer and to that of the report.
type RunRow = (&'static [&'static str], u8, &'static str, &'static str);

const USAGE: &str = "usage: spack_concretize COMMAND ARGUMENT...\n";

/// One run after the other, over the files that those before it left.
const RUNS: &[RunRow] = &[
    (
        &["concretize", "runs", "-", "-", "runs/l", "-", "zlib"],
        0,
        "zlib@=1.3 %gcc@=12.3.0 os=ubuntu22.04 target=x86_64 built\nvector 0 0 0 0 0 0 0 0 0 0 0 0 0 0 0 1 0 0 0 0 0 0 0 0 0 0 0 0 0 0 0\n",
        "",
    ),
    (
        &["judge", "runs", "-", "-", "runs/l", "zlib@1.2"],
        8,
        "",
        "refused: roots\n",
    ),
    (
        &["concretize", "runs", "-", "-", "runs/none", "-", "zlib@9"],
        1,
        "unsatisfiable\n",
        "",
    ),
    (
        &["judge", "runs", "-", "-", "runs/none", "zlib"],
        4,
        "",
        "bad input: missing runs/none\n",
    ),
    (
        &["concretize", "runs", "-", "-", "runs/l", "./runs/l", "zlib"],
        2,
        "",
        "usage: LOCK and CERT are one file\n",
    ),
    (
        &["concretize", "runs", "-", "-", "none/l", "-", "zlib"],
        6,
        "",
        "write fault: none/l\n",
    ),
    (&[], 2, "", USAGE),
    (&["--help", "judge"], 2, "", USAGE),
    (&["judge", "--version"], 2, "", USAGE),
    (&["-h"], 2, "", USAGE),
];

fn words_of(alloc: Global, texts: &[&str]) -> Result<Vec<String>, AllocError> {
    let mut words = Vec::new(alloc);
    for text in texts {
        words.push(String::from_str(alloc, text)?)?;
    }
    Ok(words)
}

#[test]
fn runs_of_the_machine(rt: HostRuntime) -> Result<(), Fail> {
    let _ = fs::remove_dir_all(&rt, "runs");
    fs::create_dir_all(&rt, "runs/packages/zlib")?;
    let recipe = "class Zlib(Package):\n    version(\"1.2.11\")\n    version(\"1.3\")\n";
    fs::write(&rt, "runs/packages/zlib/package.py", recipe)?;
    for row in RUNS {
        let (texts, number, wanted_out, wanted_err) = *row;
        let words = words_of(rt.alloc(), texts)?;
        let mut out = Vec::new(rt.alloc());
        let mut err = Vec::new(rt.alloc());
        let end = run_on_machine(&rt, &words, &mut out, &mut err);
        assert_eq!(rt; end, ExitCode::from(number));
        assert_eq!(rt; out.as_slice(), wanted_out.as_bytes());
        assert_eq!(rt; err.as_slice(), wanted_err.as_bytes());
    }
    fs::remove_dir_all(&rt, "runs")?;
    Ok(())
}

/// The words that the program answers itself, with the front of the text.
const OWN: &[(&str, &str)] = &[
    ("--help", "spack_concretize finds the best build graph"),
    ("--version", "spack_concretize of Tarosickle"),
];

#[test]
fn texts_of_its_own(rt: HostRuntime) -> Result<(), Fail> {
    for row in OWN {
        let (word, front) = *row;
        let words = words_of(rt.alloc(), &[word])?;
        let text = own_text(&words).unwrap_or("");
        assert!(rt; text.starts_with(front), "{word}");
        let mut out = Vec::new(rt.alloc());
        let mut err = Vec::new(rt.alloc());
        let end = run_on_machine(&rt, &words, &mut out, &mut err);
        assert_eq!(rt; (word, end), (word, ExitCode::SUCCESS));
        assert_eq!(rt; (word, out.as_slice()), (word, text.as_bytes()));
        assert_eq!(rt; (word, err.as_slice()), (word, b"".as_slice()));
        let mut full = [0u8; 9];
        let end = run_on_machine(&rt, &words, full.as_mut_slice(), &mut err);
        assert_eq!(rt; (word, end), (word, ExitCode::from(6)));
        assert_eq!(rt; (word, full.as_slice()), (word, b"spack_con".as_slice()));
        assert_eq!(rt;
            (word, err.as_slice()),
            (word, b"write fault: output\n".as_slice())
        );
    }
    Ok(())
}
