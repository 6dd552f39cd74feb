// The faults of a desk, of a sink and of reading a whole file.
ghost use Rattle.std.specs.Prelude.{◌≡◌};
ghost use Rattle.outside_desk.specs.declared.fault.DeskFault.TheVariants as desk_faults;
ghost use Rattle.outside_desk.specs.declared.fault.SinkFault.TheVariants as sink_faults;
ghost use Rattle.outside_desk.specs.declared.fault.ReadFault.TheVariants as read_faults;
ghost use Rattle.outside_desk.specs.Causes.{read_fault_of};

use std::alloc::AllocError;
use thiserror::Error;

/// Why a desk turned a call down.
#[derive(Clone, Copy, Debug, PartialEq, Eq, Error)]
pub enum DeskFault {
    /// The files have no such path.
    #[error("no such file")]
    Missing,
    /// The outside failed, and the desk's count of it rose.
    #[error("the desk failed")]
    Failed,
    /// Memory was short.
    #[error("out of memory")]
    OutOfMemory,
}

/// Why a sink turned a call down.
#[derive(Clone, Copy, Debug, PartialEq, Eq, Error)]
pub enum SinkFault {
    /// The outside failed, and the sink's count of it rose.
    #[error("the sink failed")]
    Failed,
    /// Memory was short.
    #[error("out of memory")]
    OutOfMemory,
}

/// Why a whole file was not read.
#[derive(Clone, Copy, Debug, PartialEq, Eq, Error)]
pub enum ReadFault {
    /// A reading answered that the files have no such path.
    #[error("no such file")]
    Missing,
    /// A reading failed.
    #[error("the desk failed")]
    Failed,
    /// The file has more bytes than the limit.
    #[error("the file is too long")]
    TooLong,
    /// Memory was short.
    #[error("out of memory")]
    OutOfMemory,
}

impl From<AllocError> for DeskFault {
    ghost from_gives = { λ _ fault. fault ≡ desk_faults.OutOfMemory };

    fn from(_: AllocError) -> DeskFault {
        DeskFault::OutOfMemory
    }
}

impl From<AllocError> for SinkFault {
    ghost from_gives = { λ _ fault. fault ≡ sink_faults.OutOfMemory };

    fn from(_: AllocError) -> SinkFault {
        SinkFault::OutOfMemory
    }
}

impl From<AllocError> for ReadFault {
    ghost from_gives = { λ _ fault. fault ≡ read_faults.OutOfMemory };

    fn from(_: AllocError) -> ReadFault {
        ReadFault::OutOfMemory
    }
}

impl From<DeskFault> for ReadFault {
    ghost from_gives = { λ e fault. fault ≡ read_fault_of e };

    fn from(fault: DeskFault) -> ReadFault {
        match fault {
            DeskFault::Missing => ReadFault::Missing,
            DeskFault::Failed => ReadFault::Failed,
            DeskFault::OutOfMemory => ReadFault::OutOfMemory,
        }
    }
}
