//! The answers of a run.

ghost use Rattle.std.specs.Prelude.{◌≡◌};
ghost use Rattle.run_answers.specs.Exits.{number_of};

/// The answer of a run. The program ends with its number as the exit status: see `number`.
#[derive(Clone, Copy, Debug, PartialEq, Eq)]
pub enum Status {
    /// The lock file was put.
    Done,
    /// There is no valid graph.
    Unsatisfiable,
    /// The words are no command.
    Usage,
    /// The budget was spent.
    Undecided,
    /// The input is refused.
    BadInput,
    /// A file could not be read.
    ReadFault,
    /// A file could not be put, or a line could not be said.
    WriteFault,
    /// The input is beyond a limit.
    TooLarge,
    /// What was to be checked is wrong.
    Refused,
    /// Memory ran out.
    NoMemory,
    /// The lock file is right, and a graph that costs less is valid.
    Stale = 11,
}

impl Status {
    /// The exit status: from 0 for `Done` to 9 for `NoMemory` the answer's place in the list of
    /// answers, and 11 for `Stale`, since the program ends with 10 where it is handed no words.
    pub fn number(self) -> u8
        ensures { result ≡ number_of self }
    {
        self as u8
    }
}
