use thiserror::Error;

/// Why a look failed, by its number. A look that fails leaves the viewer unchanged.
#[derive(Clone, Copy, Debug, PartialEq, Eq, Error)]
pub enum LookError {
    #[error("out of memory")]
    OutOfMemory = 1,
    /// No board is shown, or one with fewer entries than the viewer has seen.
    #[error("there is no view")]
    NoView = 3,
}
