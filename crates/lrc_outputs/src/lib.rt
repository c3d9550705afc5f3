//! What is written for a bundle and for a sequel, and how it ends: from bytes in memory to bytes in memory.
#![tactic(auto)]

mod begin;
mod checking;
mod error;
mod forecasting;
mod judging;
pub mod laws;
mod limits;
mod output;
mod play;
mod running;
mod sequel;
mod status;
mod together;

pub use checking::{Checked, check_of};
pub use limits::{BUNDLE_LIMIT, SEQUEL_LIMIT};
pub use output::Output;
pub use running::output_of;
pub use sequel::{Goal, sequel_output};
pub use status::Status;
