use std::alloc::AllocError;
use thiserror::Error;

/// Why opening a keeper or a manager failed, by its number.
#[derive(Clone, Copy, Debug, PartialEq, Eq, Error)]
pub enum OpenError {
    #[error("out of memory")]
    OutOfMemory = 1,
    /// There was no reader for a viewer.
    #[error("there is no reader")]
    NoReader = 2,
    #[error("a manager has 1 to 8 sessions")]
    BadCount = 3,
}

impl From<AllocError> for OpenError {
    ghost use Rattle.std.specs.Prelude.{◌≡◌};
    ghost use Rattle.lrc_board.specs.declared.open_error.OpenError.TheVariants.{OutOfMemory};

    ghost from_gives = { λ _ e. e ≡ OutOfMemory };

    fn from(_error: AllocError) -> OpenError {
        OpenError::OutOfMemory
    }
}
