//! Sessions on threads: a published book guarded by one lock, and for each session the number of its calls and what it has seen.
#![tactic(auto)]

mod closing;
mod finish;
mod gate;
pub mod laws;
mod locked_state;
mod manager;
mod naming;
mod parts;
mod run;
mod run_buffers;
mod session;
mod track;
mod worker;

pub use closing::{Closing, Counts};
pub use finish::FinishError;
pub use gate::{Gate, GateError, OpenGate};
pub use lrc_board::{BATCH_LIMIT, Batch, LookError, OpenError, Receipt, Seen, ViewNaming};
pub use manager::Manager;
pub use naming::Naming;
pub use parts::Parts;
pub use run::run_sessions;
pub use session::Session;
pub use track::{Batches, Stop, Track};
