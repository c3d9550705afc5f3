//! The homes of one stripe, the domains of their nodes, and the masks of its fragments, with the
//! level and the rank that follow.
#![tactic(auto)]

mod home_domains;
mod homes;
mod losses;
pub mod masks;

pub use home_domains::HomeDomains;
pub use homes::Homes;
pub use losses::{Losses, level_by};
