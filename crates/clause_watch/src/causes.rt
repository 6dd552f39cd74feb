//! Causes as they are kept: in 8 bytes.
ghost use Rattle.std.specs.Prelude.{◌≡◌, IfOk, None};
ghost use Rattle.clause_watch.specs.Tables.{reason_of};

use crate::codes::narrow;
use crate::trail::Cause;
use std::alloc::AllocError;
use std::marker::Model;

/// A cause: its level, and one more than the id of its reason, or 0 where it has none.
#[derive(Drop)]
pub struct PackedCause {
    level: u32,
    reason: u32,
}

impl Model for PackedCause {
    ghost use Rattle.clause_watch.specs.declared.trail.Cause.{Cause};

    ghost Value = { Cause };

    ghost use Rattle.clause_watch.specs.Tables.{reason_of};

    ghost view = { λ c. record { level = c.level; reason = reason_of c.reason } };
}

/// A reason in fewer bits; beyond them want of memory.
fn packed_reason(reason: Option<u64>) -> Result<u32, AllocError>
    ensures { IfOk result (λ n. reason_of n ≡ reason) }
{
    match reason {
        Some(id) => narrow(id.saturating_add(1) as usize),
        None => Ok(0),
    }
}

impl PackedCause {
    /// No reason at level 0.
    pub fn none() -> PackedCause
        ensures { result ≡ record { level = 0; reason = None } }
    {
        PackedCause {
            level: 0,
            reason: 0,
        }
    }

    /// The form of a cause that is kept; beyond 32 bits want of memory.
    pub fn new(cause: Cause) -> Result<PackedCause, AllocError>
        ensures { IfOk result (λ c. c ≡ cause) }
    {
        let level = narrow(cause.level as usize)?;
        let reason = packed_reason(cause.reason)?;
        Ok(PackedCause { level, reason })
    }

    /// The level.
    pub fn level(&self) -> u64
        ensures { result ≡ self.now.level }
    {
        u64::from(self.level)
    }

    /// The id of the reason.
    pub fn reason(&self) -> Option<u64>
        ensures { result ≡ self.now.reason }
    {
        if self.reason == 0 {
            return None;
        }
        Some(u64::from(self.reason - 1))
    }
}
