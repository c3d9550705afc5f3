//! The functions of the program: running, going on, checking, recovering and rebuilding, from bytes to bytes.
#![tactic(auto)]

mod apart;
mod checking;
mod coding;
mod outcome;
mod program;
mod recovery;
mod sequel;

pub use apart::ask;
pub use checking::check;
pub use coding::{matrix, recipe};
pub use lrc_forecast::Outage;
pub use lrc_groups::Named;
pub use lrc_outputs::{Goal, Status};
pub use lrc_script::{Cause, ScriptError, parse_script};
pub use lrc_show::{DomainKind, View};
pub use lrc_streams::{Plain, RunFault, Sink, Source};
pub use program::run;
pub use recovery::recover;
pub use sequel::go_on;
