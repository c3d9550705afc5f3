//! What the check of a bundle warns of: codes for which its nodes are in too few domains.
#![tactic(auto)]

mod domains;
pub mod laws;
mod warnings;

pub use warnings::warnings_of;
