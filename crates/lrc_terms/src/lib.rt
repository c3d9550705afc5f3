//! Terms that the rules and the tables share: the level of a stripe, the lease of a fragment, and the mode of a node.
#![tactic(auto)]

pub mod laws;
mod lease;
mod level;
mod mode;

pub use lease::Lease;
pub use level::Level;
pub use mode::Mode;
