use lrc_code::Fragment;
use thiserror::Error;

/// Why buffers are refused. Nothing has been written then.
#[derive(Clone, Copy, Debug, PartialEq, Eq, Error)]
pub enum CodingError {
    /// The buffers are not as many as the code has fragments.
    #[error("the buffers are not as many as the fragments of the code")]
    Count,
    /// The recipe reads this fragment, which the code lacks.
    #[error("the code has no fragment {number}", number = .0.value)]
    NoFragment(Fragment),
    /// The buffer of this fragment has another length than the others.
    #[error("the buffer of fragment {number} has another length", number = .0.value)]
    Length(Fragment),
}
