use lrc_book::Reply;

/// The result of a call: its place in the history and its reply.
#[derive(Clone, Copy, Debug, PartialEq, Eq)]
pub struct Receipt {
    /// The place of the call in the history, counted from 1.
    pub place: u64,
    pub reply: Reply,
}
