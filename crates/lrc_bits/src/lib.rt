//! Sets of small numbers, stored as bits. Contracts see a set as a list of truth values, one for each number.
#![tactic(auto)]

mod bit_set;
mod members;

pub use bit_set::BitSet;
pub use members::Members;
