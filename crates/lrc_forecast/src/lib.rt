//! What would become of the stripes if nodes were stopped or lost.
#![tactic(auto)]

mod forecasts;
mod hits;
pub mod laws;
mod outlook;
mod seats;

pub use forecasts::{forecast, is_safe};
pub use outlook::{Outage, Outlook};
