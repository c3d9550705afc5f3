//! The store: a state of `lrc_rules` in tables of slots, stripes and leases, with the clock. It
//! finds the answer to each command, and makes its change. `IsOf` of `specs/Stores` relates the
//! tables to the state.
#![tactic(auto)]

mod choice;
mod clock;
mod commands;
mod cursor;
mod decide;
pub mod laws;
mod repair;
mod store;

pub use clock::Clock;
pub use commands::leases::count_grant;
pub use cursor::RepairCursor;
pub use repair::Repair;
pub use store::Store;
