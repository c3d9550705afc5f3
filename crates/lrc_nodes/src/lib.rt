//! The nodes of a store in the order of the topology, with their states: the mode of each, and whether it is down or
//! upgrading. Only `Nodes::new` allocates.
#![tactic(auto)]

mod domains;
mod flags;
mod node_state;
mod nodes;

pub use node_state::NodeState;
pub use nodes::Nodes;
