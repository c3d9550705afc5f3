//! The domains that the seats of a stripe bar for a fragment, in the forms in which a choice of a
//! seat looks at them; and the laws that the slot table gives the seat that the rules choose.
#![tactic(auto)]

mod class_bars;
pub mod laws;
mod neighbours;

pub use class_bars::ClassBars;
pub use neighbours::{Neighbours, OtherSeats};
