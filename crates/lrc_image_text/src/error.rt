use std::alloc::{AllocError, AllocFailed};

/// Why a text is not read as an image.
#[derive(Clone, Copy, Debug, PartialEq, Eq)]
pub enum ImageTextError {
    /// The line of this number, counted from 1, is not one that may come there.
    BadLine(u64),
    OutOfMemory,
}

impl From<AllocError> for ImageTextError {
    ghost use Rattle.std.specs.Prelude.{◌≡◌};
    ghost use Rattle.lrc_image_text.specs.declared.error.ImageTextError.TheVariants.{OutOfMemory};

    ghost from_gives = { λ _ e. e ≡ OutOfMemory };

    fn from(_error: AllocError) -> ImageTextError {
        ImageTextError::OutOfMemory
    }
}

impl<T: Drop> From<AllocFailed<T>> for ImageTextError {
    ghost use Rattle.std.specs.Prelude.{◌≡◌};
    ghost use Rattle.lrc_image_text.specs.declared.error.ImageTextError.TheVariants.{OutOfMemory};

    ghost from_gives = { λ _ e. e ≡ OutOfMemory };

    fn from(_error: AllocFailed<T>) -> ImageTextError {
        ImageTextError::OutOfMemory
    }
}
