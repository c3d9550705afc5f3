//! The rules of the store: the reply to each command, and the state after it, over plain lists. These definitions are
//! what a reader must check and believe. The other crates are proved to follow them. No table, index, memory or lock
//! occurs here.
//!
//! Terms:
//!
//! - A *seat* is a slot of a node. The *home* of a fragment is the seat that holds it. A live lease keeps a seat for its
//!   fragment, the *target*. A seat is *held* if it is a home or a target. The *load* of a node is the number of held
//!   seats on it.
//! - A node is *gone* if it is out of the store. It is *online* if it is not gone, not down, and not in the upgrade
//!   domain that is upgrading. Else it is *offline*.
//! - A fragment is *homeless* if it has no home, and *missing* if it has no home on an online node.
//! - The *level* of a stripe says how far it is from loss. Its *rank* orders repair: 0 is the most urgent.
//!
//! Read `specs/` in this order:
//!
//! 1. `Served`: what the manager promises of its history and of the state after it, a field for each phrase about them.
//! 2. `States`: the state of the store, and what can be read from it. `Outcomes`: a reply with the next state.
//! 3. `Steps`, `Leases`, `Placement`, `Repairs` and `Urgency`: the reply to each command, and the state after it.
//! 4. `Histories` and `Sessions`: legal histories, and the state after one.
//! 5. `Goodness` and `Tidiness`: what holds after each legal history.
//! 6. `Alike` and `Futures`: states that differ at most in the order of their lists, and what they have in common.
//!
//! `Choices`, `Granting`, `Upgrading`, `Reporting`, `Endings`, `Touching` and `Boards` hold words of the laws. `Changes` says
//! once more what a command changes, for proofs alone.
//!
//! The functions of `laws` do nothing. Their contracts are theorems about these definitions.
#![tactic(auto)]

mod command;
mod entry;
mod kind;
pub mod laws;
mod node_command;
mod refusal;
mod reply;

pub use command::Command;
pub use entry::Entry;
pub use kind::Kind;
pub use lrc_terms::{Lease, Level, Mode};
pub use lrc_topology::{Held, Seat};
pub use node_command::NodeCommand;
pub use refusal::Refusal;
pub use reply::Reply;
