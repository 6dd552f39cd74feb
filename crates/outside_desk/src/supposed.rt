//! What a machine is supposed to hold: only proofs read it.

ghost use Rattle.std.specs.Prelude.{◌≡◌, Bool, List, Option};
ghost use Rattle.std.specs.Borrow.{ftrue};
ghost use Rattle.std.specs.Coded.{coded_bool, coded_list, coded_option};
ghost use Rattle.outside_desk.specs.Files.{Files, files_code};

use crate::DeskFault;
use std::marker::Model;

/// Files that a machine is supposed to hold, as long as it answered as they have it. It takes no
/// bytes, and its calls do nothing at run time.
///
/// Nothing in it is tied to the machine, which tells nothing: what a desk of the machine makes of
/// it after each call is what ties it.
#[derive(Drop)]
pub struct Supposed {
    /// The files; none are told any more where the machine answered otherwise.
    pub ghost files: { Option Files } by { coded_option files_code },
    /// Of each put that fails, one behind the other, whether the file holds the bytes then.
    pub ghost late: { List Bool } by { coded_list coded_bool },
}

impl Model for Supposed {
    ghost also_owns = { λ _. ftrue };
}

/// A call of a desk, with what it gave.
#[derive(Clone, Copy, Drop)]
pub enum DeskCall<'a> {
    /// Of `read_at`, with the buffer behind it.
    Read {
        path: &'a str,
        from: u64,
        out: &'a [u8],
        answer: &'a Result<usize, DeskFault>,
    },
    /// Of `list`.
    Listed {
        path: &'a str,
        answer: &'a Result<Vec<String>, DeskFault>,
    },
    /// Of `put`.
    Put {
        path: &'a str,
        bytes: &'a [u8],
        answer: &'a Result<(), DeskFault>,
    },
}

impl Supposed {
    ghost use Rattle.outside_desk.specs.Supposed.{files_after, late_after};

    /// Any files: whoever proves a call of it picks them.
    pub fn any() -> Supposed
        ghost holds: { Option Files × List Bool }
        ensures { (result.files ≡ holds.0) × (result.late ≡ holds.1) }
    {
        Supposed {}
    }

    /// The same behind a call.
    pub fn after(&self, _call: &DeskCall<'_>) -> Supposed
        ensures { (result.files ≡ files_after _call.now self.now.late self.now.files)
            × (result.late ≡ late_after _call.now self.now.late) }
    {
        Supposed {}
    }
}
