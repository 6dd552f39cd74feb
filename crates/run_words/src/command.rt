//! The words of the command line.

ghost use Rattle.std.specs.Prelude.{◌≡◌, IfOk};
ghost use Rattle.std.specs.String.{string_bytes};
ghost use Rattle.run_words.specs.Words.{words_of, joined_words, command_over, is_word, is_wrong, unless_wrong, is_blank, is_same_path, is_dash_path};
ghost use Rattle.run_words.specs.Words as words;

use crate::verbs::{FileWord, Verb};
use spec_grammar::is_white;
use std::alloc::{AllocError, Global};
use std::marker::Model;

/// What a command does with what it reads.
#[derive(Clone, Copy, Debug, PartialEq, Eq)]
pub enum Work {
    /// Finds the best graph.
    Concretize,
    /// Judges the graph of a lock file.
    Judge,
    /// Judges it, and whether a certificate shows that it is the best.
    Check,
    /// Judges it, and whether it is still the best.
    Fresh,
    /// Checks whether a certificate shows that there is none.
    Refute,
    /// Says why there is none.
    Explain,
    /// Says why, by a list of which nothing can be left out.
    Reasons,
    /// Finds the installed packages that meet a spec.
    Find,
    /// Says in which order the graph of a lock file can be built.
    Plan,
    /// Finds the best graph of each spec by itself.
    Each,
    /// Checks for each spec by itself whether its certificate shows that its lock file is the best.
    CheckEach,
    /// Finds the best graph of a repository that is made in memory, of 1 to 1,000 packages.
    Trial { packages: u64, seed: u64 },
}

/// What the words behind a verb say: `concretize` and
/// `check REPO SETTINGS DATABASE LOCK CERT SPEC`, `judge`, `fresh` and
/// `plan REPO SETTINGS DATABASE LOCK SPEC`, `refute REPO SETTINGS DATABASE CERT SPEC`, `explain`,
/// `reasons` and `find REPO SETTINGS DATABASE SPEC`, `each` and
/// `check_each REPO SETTINGS DATABASE DIR SPEC`, `trial N SEED`.
#[derive(Debug, Drop)]
pub struct Command<'a> {
    pub work: Work,
    pub repo: &'a str,
    pub settings: &'a str,
    pub database: &'a str,
    /// The lock file, or the folder of many; `-` where there is none.
    pub lock: &'a str,
    /// `-` where there is none.
    pub cert: &'a str,
    /// The words of the spec, joined by one space.
    pub spec: String,
}

impl<'a> Model for Command<'a> {
    ghost use Rattle.std.specs.String.{string_bytes};
    ghost use Rattle.run_words.specs.Words.{Command};

    ghost Value = { Command };

    ghost view = { λ c. record {
      work = c.work;
      repo = c.repo.now;
      settings = c.settings.now;
      database = c.database.now;
      lock = c.lock.now;
      cert = c.cert.now;
      spec = string_bytes c.spec;
    } };
}

/// Words joined by one space.
fn join_words(alloc: Global, first: &str, more: &[String]) -> Result<String, AllocError>
    ensures { IfOk result (λ text. string_bytes text ≡ joined_words first.now (words_of more.now)) }
{
    let mut text = String::from_str(alloc, first)?;
    for word in more {
        text.push(' ')?;
        text.push_str(word.as_str())?;
    }
    Ok(text)
}

fn is_blank(text: &[u8]) -> bool
    ensures { result ≡ is_blank text.now }
{
    text.iter().all(|b| is_white(*b))
}

#[tactic(auto, unfolding(crate::specs::Words::is_same_path))]
pub(crate) fn is_same(a: &str, b: &str) -> bool
    ensures { result ≡ is_same_path a.now b.now }
{
    a == b
}

/// Whether a path is written `-`, which stands for none.
#[tactic(auto, unfolding(crate::specs::Words::is_dash_path))]
pub fn is_dash(path: &str) -> bool
    ensures { result ≡ is_dash_path path.now }
{
    path == "-"
}

/// Whether a file stands among the words.
fn is_word(file: FileWord) -> bool
    ensures { result ≡ is_word file }
{
    match file {
        FileWord::Absent => false,
        FileWord::Optional | FileWord::Needed => true,
    }
}

/// Whether a file is missing that is needed.
fn lacks(file: FileWord, path: &str) -> bool
    ensures { result ≡ words.lacks file path.now }
{
    match file {
        FileWord::Needed => is_dash(path),
        FileWord::Absent | FileWord::Optional => false,
    }
}

/// Whether a file is missing that the verb needs, or one stands for both.
fn lacks_file(verb: Verb, lock: &str, cert: &str) -> bool
    ensures { result ≡ words.lacks_file verb lock.now cert.now }
{
    lacks(verb.lock, lock)
        || lacks(verb.cert, cert)
        || is_word(verb.lock) && is_word(verb.cert) && is_same(lock, cert)
}

/// Whether a command lacks a file, or a spec.
fn is_wrong(verb: Verb, command: &Command<'_>) -> bool
    ensures { result ≡ is_wrong verb command.now }
{
    lacks_file(verb, command.lock, command.cert) || is_blank(command.spec.as_bytes())
}

#[tactic(auto, unfolding(crate::specs::Words::unless_wrong))]
fn unless_wrong(verb: Verb, command: Command<'_>) -> Option<Command<'_>>
    ensures { result ≡ unless_wrong verb command.entry }
{
    if is_wrong(verb, &command) {
        None
    } else {
        Some(command)
    }
}

/// The paths of a command.
#[derive(Clone, Copy)]
pub(crate) struct FilePaths<'a> {
    pub(crate) repo: &'a str,
    pub(crate) settings: &'a str,
    pub(crate) database: &'a str,
    pub(crate) lock: &'a str,
    pub(crate) cert: &'a str,
}

/// The command of a verb over these paths with these words of the spec.
#[tactic(auto, unfolding(crate::specs::Words::command_over))]
pub(crate) fn command_over<'a>(
    alloc: Global,
    verb: Verb,
    paths: FilePaths<'a>,
    first: &str,
    more: &[String],
) -> Result<Option<Command<'a>>, AllocError>
    ensures { IfOk result (λ command. command ≡ command_over verb (record {
      repo = paths.entry.repo.now;
      settings = paths.entry.settings.now;
      database = paths.entry.database.now;
      lock = paths.entry.lock.now;
      cert = paths.entry.cert.now;
    }) first.now (words_of more.now)) }
{
    let spec = join_words(alloc, first, more)?;
    let command = Command {
        work: verb.work,
        repo: paths.repo,
        settings: paths.settings,
        database: paths.database,
        lock: paths.lock,
        cert: paths.cert,
        spec,
    };
    Ok(unless_wrong(verb, command))
}
