//! The reply to a command as a history keeps it, with seats in a box, and as a reader borrows it.
#![tactic(auto)]

mod answer;
mod reply_ref;

pub use answer::{Answer, NO_SEAT};
pub use reply_ref::ReplyRef;
