//! The feed of a published book: its calls in order. One end writes them, and any number of ends read them, on any threads.
//! None of them waits for another.
//!
//! A word that threads share has the number of calls, and a call is added by one exchange of it. A call lies in a cell,
//! which is written once, after its exchange. With it lies what shows that the feed has this call at this place. So the
//! calls of an end are a prefix of those of any other end of the feed that has as many.
#![tactic(auto)]

mod cells;
mod end;
mod feed;
mod law;

pub use end::{FeedEnd, begins};
pub use feed::{FEED_LIMIT, FedCall};
