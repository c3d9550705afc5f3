//! What a book has, as the records of C: rows in a buffer, and what there is of one node or entry.
#![tactic(auto)]

mod modes;
mod outages;
mod risk;
mod walks;

pub use modes::{down_of, mode_of};
pub use outages::{are_nodes, outage_numbered, outlooks, put_outlooks};
pub use risk::put_risk;
pub use walks::{entry_at, put_entries, put_homes, put_leases, put_nodes, put_stripes};
