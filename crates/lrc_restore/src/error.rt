use lrc_code::Fault;
use lrc_images::Cause;
use std::alloc::{AllocError, AllocFailed};

/// Why a book can't begin in an image.
#[derive(Clone, Copy, Debug, PartialEq, Eq)]
pub enum BeginError {
    /// The first row that is wrong, by its position, and why. The rows of all lists are counted from 1: those of the nodes
    /// first, then those of the stripes, the grants and the leases. The position 0 is what the image says beside its rows.
    Refused(usize, Cause),
    OutOfMemory,
}

/// The first row that is wrong, by its position, and why.
#[derive(Clone, Copy)]
pub(crate) struct RefusedRow {
    pub(crate) position: usize,
    pub(crate) cause: Cause,
}

impl From<RefusedRow> for BeginError {
    ghost use Rattle.std.specs.Prelude.{◌≡◌};
    ghost use Rattle.lrc_restore.specs.declared.error.BeginError.TheVariants.{Refused};

    ghost from_gives = { λ row e. e ≡ Refused row.position row.cause };

    fn from(row: RefusedRow) -> BeginError {
        BeginError::Refused(row.position, row.cause)
    }
}

impl From<AllocError> for BeginError {
    ghost use Rattle.std.specs.Prelude.{◌≡◌};
    ghost use Rattle.lrc_restore.specs.declared.error.BeginError.TheVariants.{OutOfMemory};

    ghost from_gives = { λ _ e. e ≡ OutOfMemory };

    fn from(_error: AllocError) -> BeginError {
        BeginError::OutOfMemory
    }
}

impl<T: Drop> From<AllocFailed<T>> for BeginError {
    ghost use Rattle.std.specs.Prelude.{◌≡◌};
    ghost use Rattle.lrc_restore.specs.declared.error.BeginError.TheVariants.{OutOfMemory};

    ghost from_gives = { λ _ e. e ≡ OutOfMemory };

    fn from(_error: AllocFailed<T>) -> BeginError {
        BeginError::OutOfMemory
    }
}

impl From<Fault> for BeginError {
    ghost use Rattle.std.specs.Prelude.{◌≡◌};
    ghost use Rattle.lrc_restore.specs.declared.error.BeginError.TheVariants.{OutOfMemory};

    ghost from_gives = { λ _ e. e ≡ OutOfMemory };

    fn from(_fault: Fault) -> BeginError {
        BeginError::OutOfMemory
    }
}
