//! The records that cross the border to C, each of a fixed layout, and what each says of the rules' own values.
#![tactic(auto)]

mod code;
mod command;
mod entry;
mod fragment;
mod home;
pub mod laws;
mod lease;
mod level;
mod mode;
mod names;
mod node;
mod outlook;
mod recipe;
mod repair;
mod reply;
mod risk;
mod seat;
mod stripe;

pub use code::{code_number, code_of};
pub use command::LrcCommand;
pub use entry::LrcEntry;
pub use fragment::LrcFragment;
pub use home::{LrcHome, LrcHomes};
pub use lease::LrcLease;
pub use level::LrcLevel;
pub use mode::{LrcMode, flag};
pub use names::{command_fields, command_name, refusal_name, reply_name, status_name};
pub use node::LrcNode;
pub use outlook::LrcOutlook;
pub use recipe::LrcRecipe;
pub use repair::LrcRepairPlan;
pub use reply::LrcReply;
pub use risk::LrcRisk;
pub use seat::LrcSeat;
pub use stripe::LrcStripe;
