//! Parses what the tool reads: bundles into scripts, and scripts into commands.
#![tactic(auto)]

mod bundle;
mod cause;
mod cut;
mod forms;
mod front;
pub mod laws;
mod script;

pub use bundle::{Bundle, BundleError, ScriptText, split_bundle};
pub use forms::push_command;
pub use script::{Cause, ScriptError, parse_line, parse_script};
