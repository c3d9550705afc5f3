//! Nodes that are named together, by their numbers and by domains.
#![tactic(auto)]

mod group;
mod named;

pub use group::{first_lacking, numbers_in};
pub use named::Named;
