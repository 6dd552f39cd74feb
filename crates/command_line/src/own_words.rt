//! What the program says of itself where its one word asks for that. To `run` that word is no
//! command.

ghost use Rattle.std.specs.Prelude.{◌≡◌, None, IfSome};
ghost use Rattle.std.specs.Option.{option_map};
ghost use Rattle.run_output.specs.Words.{words_of, command_of};
ghost use Rattle.command_line.specs.OwnWords.{own_text, text_for};

/// How the program is called.
const HELP: &str = "\
spack_concretize finds the best build graph of specs over a repository of recipes.

  concretize REPO SETTINGS DATABASE LOCK CERT SPEC..   finds it, and puts it at LOCK
  judge REPO SETTINGS DATABASE LOCK SPEC..             whether the graph of LOCK is valid, and its cost
  check REPO SETTINGS DATABASE LOCK CERT SPEC..        whether it is the best, as CERT shows
  fresh REPO SETTINGS DATABASE LOCK SPEC..             whether it is still the best, by a search
  refute REPO SETTINGS DATABASE CERT SPEC..            whether CERT shows that there is no graph
  explain REPO SETTINGS DATABASE SPEC..                what stands against a graph
  reasons REPO SETTINGS DATABASE SPEC..                the same, by a list that needs each of its lines
  find REPO SETTINGS DATABASE SPEC..                   which installed packages meet the spec
  plan REPO SETTINGS DATABASE LOCK SPEC..              in which waves the graph of LOCK can be built
  each REPO SETTINGS DATABASE DIR SPEC..               finds the best of each spec by itself, into DIR
  check_each REPO SETTINGS DATABASE DIR SPEC..         whether all in DIR are the best
  trial N SEED                                         finds the best graph of N made packages
  --help, --version                                    this text, or which program this is

REPO has packages/NAME/package.py; SPEC is one spec or more, such as 'hdf5@1.14: +mpi ^mpich'.
SETTINGS, DATABASE and CERT may be -: the standard settings, nothing installed, no certificate.
It ends with 0 done, 1 unsatisfiable, 2 usage, 3 undecided, 4 bad input, 5 read fault, 6 write fault,
7 too large, 8 refused, 9 no memory, 10 no words, 11 stale.
The documents are README.md and docs/ of its sources; where it is installed, share/doc/tarosickle.
";

/// Which program it is.
const VERSION: &str = "\
spack_concretize of Tarosickle: lock files of version 2 (1 is read too), databases of versions 1 and 2
Of which sources it is: PROVENANCE beside the released file; the launcher says it by --version.
";

/// The text that a word asks for.
#[tactic(auto, unfolding(crate::specs::OwnWords::text_for))]
fn text_for(word: &str) -> Option<&'static str>
    ensures { option_map (λ text. text.now) result ≡ text_for word.now }
{
    if word == "--help" {
        Some(HELP)
    } else if word == "--version" {
        Some(VERSION)
    } else {
        None
    }
}

/// The text that the words of a command line ask for: `--help` alone and `--version` alone. No
/// command is among these words.
pub fn own_text(words: &[String]) -> Option<&'static str>
    ensures text { option_map (λ text. text.now) result ≡ own_text (words_of words.now) }
    ensures no_command { IfSome result (λ _. command_of (words_of words.now) ≡ None) }
{
    match words {
        [word] => text_for(word.as_str()),
        _ => None,
    }
}
