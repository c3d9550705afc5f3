//! The book: a store, and the history of commands and replies. `lrc_rules` defines what each
//! command returns and changes; `Book::call` makes one call, over the tables of `lrc_store`.
//!
//! A `Record` is an entry as the history keeps it, with its reply as an `Answer`.
#![tactic(auto)]

mod begin;
mod book;
mod image;
pub mod laws;
mod looks;
mod masks;
mod record;
mod step;

pub use book::{Book, HISTORY_LIMIT};
pub use lrc_answers::ReplyRef;
pub use lrc_images::{Cause, GrantRow, Image, LeaseRow, NodeRow, StripeRow};
pub use lrc_restore::BeginError;
pub use lrc_rules::{Command, Entry, Held, Kind, Lease, Level, Mode, Refusal, Reply, Seat};
pub use masks::homeless_of;
pub use record::Record;
