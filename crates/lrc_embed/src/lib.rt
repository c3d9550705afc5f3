//! The book for programs in other languages: a static library whose functions take a handle. `lrc_records` has the
//! records that they read and write.
#![tactic(auto)]

mod exports;
mod feed_handle;
mod handle;
pub mod laws;
mod loose;
mod owned;
mod owned_feed;
pub mod status;

pub use feed_handle::{LrcFeed, LrcPublished, LrcViewer};
pub use handle::LrcHandle;
pub use owned::OwnedBook;
pub use owned_feed::OwnedFeed;
