//! The names of answers.
use concretizer::Status;

/// The name of an answer, as a scenario spells it.
pub(crate) fn status_name(status: Status) -> &'static str {
    match status {
        Status::Done => "Done",
        Status::Unsatisfiable => "Unsatisfiable",
        Status::Usage => "Usage",
        Status::Undecided => "Undecided",
        Status::BadInput => "BadInput",
        Status::ReadFault => "ReadFault",
        Status::WriteFault => "WriteFault",
        Status::TooLarge => "TooLarge",
        Status::Refused => "Refused",
        Status::NoMemory => "NoMemory",
        Status::Stale => "Stale",
    }
}
