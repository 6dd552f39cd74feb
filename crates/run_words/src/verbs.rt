//! The command that the words behind each verb make.

ghost use Rattle.std.specs.Prelude.{◌≡◌, IfOk};
ghost use Rattle.std.specs.Option.{option_map};
ghost use Rattle.run_words.specs.Words.{words_of, row, verb_of, path_in, words_behind, with_spec, command_by, trial_over, trial_of, command_of};

use crate::command::{Command, FilePaths, Work, command_over, is_same};
use crate::number::number_of_word;
use std::alloc::{AllocError, Global};

/// Whether a file stands among the words of a verb.
#[derive(Clone, Copy)]
pub enum FileWord {
    /// It does not.
    Absent,
    /// It does, and `-` stands for none.
    Optional,
    /// It does, and has to be a file.
    Needed,
}

/// A verb over files: what its command does, and which files stand among the words behind it, which
/// are `REPO SETTINGS DATABASE`, LOCK, or DIR in its place, and CERT where they are words of it,
/// and `SPEC..`.
#[derive(Clone, Copy)]
pub struct Verb {
    pub work: Work,
    pub lock: FileWord,
    pub cert: FileWord,
}

/// A row of the table of verbs: whether LOCK, and whether CERT is a word.
fn row(work: Work, lock: FileWord, cert: FileWord) -> Option<Verb>
    ensures { result ≡ row work lock cert }
{
    Some(Verb { work, lock, cert })
}

/// The table of verbs: the verb over files of a name.
#[tactic(auto, unfolding(crate::specs::Words::verb_of))]
fn verb_of(name: &str) -> Option<Verb>
    ensures { result ≡ verb_of name.now }
{
    if is_same(name, "concretize") {
        row(Work::Concretize, FileWord::Needed, FileWord::Optional)
    } else if is_same(name, "judge") {
        row(Work::Judge, FileWord::Needed, FileWord::Absent)
    } else if is_same(name, "check") {
        row(Work::Check, FileWord::Needed, FileWord::Needed)
    } else if is_same(name, "fresh") {
        row(Work::Fresh, FileWord::Needed, FileWord::Absent)
    } else if is_same(name, "refute") {
        row(Work::Refute, FileWord::Absent, FileWord::Needed)
    } else if is_same(name, "explain") {
        row(Work::Explain, FileWord::Absent, FileWord::Absent)
    } else if is_same(name, "reasons") {
        row(Work::Reasons, FileWord::Absent, FileWord::Absent)
    } else if is_same(name, "find") {
        row(Work::Find, FileWord::Absent, FileWord::Absent)
    } else if is_same(name, "plan") {
        row(Work::Plan, FileWord::Needed, FileWord::Absent)
    } else if is_same(name, "each") {
        row(Work::Each, FileWord::Needed, FileWord::Absent)
    } else if is_same(name, "check_each") {
        row(Work::CheckEach, FileWord::Needed, FileWord::Absent)
    } else {
        None
    }
}

/// The path of a file, where its word stands in front, or is none; `-` for a file that is no word.
#[tactic(auto, unfolding(crate::specs::Words::path_in))]
fn path_in<'a>(file: FileWord, words: &'a [String]) -> Option<&'a str>
    ensures { option_map (λ path. path.now) result ≡ path_in file (words_of words.now) }
{
    if matches!(file, FileWord::Absent) {
        return Some("-");
    }
    match words {
        [word, ..] => Some(word.as_str()),
        [] => None,
    }
}

/// The words behind that of a file.
#[tactic(auto, unfolding(crate::specs::Words::words_behind))]
fn words_behind<'a>(file: FileWord, words: &'a [String]) -> &'a [String]
    ensures { words_of result.now ≡ words_behind file (words_of words.now) }
{
    if matches!(file, FileWord::Absent) {
        return words;
    }
    match words {
        [_, more @ ..] => more,
        [] => words,
    }
}

/// The command of a verb over these paths with the words of the spec, of which there is one at
/// least.
#[tactic(auto, unfolding(crate::specs::Words::with_spec))]
fn with_spec<'a>(
    alloc: Global,
    verb: Verb,
    paths: FilePaths<'a>,
    words: &[String],
) -> Result<Option<Command<'a>>, AllocError>
    ensures { IfOk result (λ command. command ≡ with_spec verb (record {
      repo = paths.entry.repo.now;
      settings = paths.entry.settings.now;
      database = paths.entry.database.now;
      lock = paths.entry.lock.now;
      cert = paths.entry.cert.now;
    }) (words_of words.now)) }
{
    match words {
        [first, more @ ..] => command_over(alloc, verb, paths, first.as_str(), more),
        [] => Ok(None),
    }
}

/// The command that the words behind a verb make.
#[tactic(auto, unfolding(crate::specs::Words::command_by))]
fn read_verb<'a>(
    alloc: Global,
    verb: Verb,
    words: &'a [String],
) -> Result<Option<Command<'a>>, AllocError>
    ensures { IfOk result (λ command. command ≡ command_by verb (words_of words.now)) }
{
    let [repo, settings, database, files @ ..] = words else {
        return Ok(None);
    };
    let Some(lock) = path_in(verb.lock, files) else {
        return Ok(None);
    };
    let more = words_behind(verb.lock, files);
    let Some(cert) = path_in(verb.cert, more) else {
        return Ok(None);
    };
    let paths = FilePaths {
        repo: repo.as_str(),
        settings: settings.as_str(),
        database: database.as_str(),
        lock,
        cert,
    };
    with_spec(alloc, verb, paths, words_behind(verb.cert, more))
}

/// A trial of so many packages.
#[tactic(auto, unfolding(crate::specs::Words::trial_over))]
fn trial_over<'a>(
    alloc: Global,
    packages: u64,
    seed: u64,
) -> Result<Option<Command<'a>>, AllocError>
    ensures { IfOk result (λ command. command ≡ trial_over packages seed) }
{
    if 0 < packages && packages <= 1000 {
        Ok(Some(Command {
            work: Work::Trial { packages, seed },
            repo: "repo",
            settings: "-",
            database: "-",
            lock: "-",
            cert: "-",
            spec: String::from_str(alloc, "p0")?,
        }))
    } else {
        Ok(None)
    }
}

/// The command that the words behind `trial` make.
#[tactic(auto, unfolding(crate::specs::Words::trial_of))]
fn read_trial<'a>(alloc: Global, words: &'a [String]) -> Result<Option<Command<'a>>, AllocError>
    ensures { IfOk result (λ command. command ≡ trial_of (words_of words.now)) }
{
    let [packages, seed] = words else {
        return Ok(None);
    };
    let Some(packages) = number_of_word(alloc, packages.as_str())? else {
        return Ok(None);
    };
    let Some(seed) = number_of_word(alloc, seed.as_str())? else {
        return Ok(None);
    };
    trial_over(alloc, packages, seed)
}

/// The command that the words are; `None` where they are none.
pub(crate) fn command_of<'a>(
    alloc: Global,
    words: &'a [String],
) -> Result<Option<Command<'a>>, AllocError>
    ensures { IfOk result (λ command. command ≡ command_of (words_of words.now)) }
{
    let [name, more @ ..] = words else {
        return Ok(None);
    };
    if is_same(name.as_str(), "trial") {
        return read_trial(alloc, more);
    }
    match verb_of(name.as_str()) {
        Some(verb) => read_verb(alloc, verb, more),
        None => Ok(None),
    }
}
