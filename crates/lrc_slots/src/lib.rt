//! Which slots of the nodes are taken, and which node gets the next seat. Only `SlotTable::new` allocates.
#![tactic(auto)]

mod barred_domains;
mod barred_nodes;
mod barring;
pub mod laws;
mod listing;
mod node_slots;
mod open_node;
mod ordinal_set;
mod ordinal_sets;
mod setup;
mod table;
mod walk;

pub use barred_domains::BarredDomains;
pub use barred_nodes::BarredNodes;
pub use barring::Barring;
pub use open_node::{OpenNode, OpenRow};
pub use table::SlotTable;
