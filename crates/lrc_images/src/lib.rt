//! Images: a state of a store as rows, with the number of leases granted for each fragment. A book
//! begins from an image and forgets its history into one.
//!
//! `specs/Images` says which state an image stands for, `specs/Rising` which rows are in order, and
//! `specs/Causes` which row of an image is the first that is wrong in a store with given nodes.
//! `specs/Cuts` counts the rows, and `specs/Faults` says in words what can be wrong with each.
//! `specs/Bases` says in which worlds a book can begin. The functions of `laws` do nothing. Their
//! contracts are theorems about these definitions.
#![tactic(auto)]

mod cause;
mod image;
pub mod laws;
mod limits;

pub use cause::Cause;
pub use image::{GrantRow, Image, LeaseRow, NodeRow, StripeRow};
pub use limits::{MOST_ENTRIES, MOST_GRANTS, MOST_TICKS};
