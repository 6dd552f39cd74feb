//! Why a line of a certificate is refused.

ghost use Rattle.std.specs.Prelude.{◌≡◌};
ghost use Rattle.run_answers.specs.Refusals as lines;

/// Why a line of a certificate is refused: the first that holds, in this order. What each means is
/// in `docs/formats/proof_log.md`.
#[derive(Clone, Copy, Debug, PartialEq, Eq)]
pub enum LineFault {
    /// It spells no line, or has no end.
    BadLine,
    WrongCounts,
    OutOfOrder,
    UnknownId,
    NoPivot,
    TwoPivots,
    NotContained,
    WrongBit,
    NotNew,
    /// The lines before it are right, and there should be one more.
    Unfinished,
}

/// The name of the fault.
pub(crate) fn line_fault_name(fault: LineFault) -> &'static str
    ensures { result.now ≡ lines.line_fault_name fault }
{
    match fault {
        LineFault::BadLine => "BadLine",
        LineFault::WrongCounts => "WrongCounts",
        LineFault::OutOfOrder => "OutOfOrder",
        LineFault::UnknownId => "UnknownId",
        LineFault::NoPivot => "NoPivot",
        LineFault::TwoPivots => "TwoPivots",
        LineFault::NotContained => "NotContained",
        LineFault::WrongBit => "WrongBit",
        LineFault::NotNew => "NotNew",
        LineFault::Unfinished => "Unfinished",
    }
}
