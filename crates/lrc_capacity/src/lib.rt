//! How many more stripes the choice rule places.
#![tactic(auto)]

mod capacity;
mod choice;
mod placing;
mod room;
mod shortage;

pub use capacity::{Capacity, capacity_of};
pub use room::NodeRoom;
pub use shortage::Shortage;
