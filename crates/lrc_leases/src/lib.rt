//! The live repair leases of a store. A lease lets one session rebuild or move a fragment to a seat.
#![tactic(auto)]

mod arrays;
mod chains;
mod ending_at;
mod grants;
mod leases;
mod link;
mod masks;
mod search;
mod spot;
mod targets_on;
mod walk;

pub use ending_at::EndingAt;
pub use grants::Grants;
pub use leases::Leases;
pub use lrc_terms::Lease;
pub use targets_on::TargetsOn;
