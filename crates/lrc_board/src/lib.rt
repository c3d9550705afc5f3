//! The published view of a book: a log of its entries, which only its keeper can append to, and two boards, from which viewers read
//! levels and loads without a lock.
#![tactic(auto)]

mod batch;
mod board;
mod changes;
mod error;
mod keeper;
mod line;
mod log;
mod naming;
mod node_loads;
mod open;
mod open_error;
mod publisher;
mod question;
mod receipt;
mod rule;
mod steps;
mod stripe_homes;
mod viewer;

pub use batch::{BATCH_LIMIT, Batch};
pub use board::{Board, NoOperation};
pub use error::LookError;
pub use keeper::Keeper;
pub use line::{Entries, Line, LogPrefix, LogRule};
pub use log::{Log, NewLog, begins};
pub use naming::ViewNaming;
pub use open_error::OpenError;
pub use receipt::Receipt;
pub use rule::ViewRule;
pub use viewer::{Seen, Viewer};
