//! The store of an image, with the number of leases granted for each fragment. The rows are taken
//! one after the other; the first that is wrong refuses the image.
//!
//! `specs/Stages` has the state after some rows of the nodes, and `Causes` of `lrc_images` those after
//! some of the others, with the causes.
#![tactic(auto)]

mod error;
mod grants;
mod head;
mod leases;
mod nodes;
mod order;
mod parts;
mod position;
mod seats;
mod stripes;

pub use error::BeginError;
pub use parts::restore;
