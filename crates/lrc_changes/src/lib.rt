//! The fragments whose home or lease is another one after an entry, each as a row.
#![tactic(auto)]

mod change;
mod changed;
pub mod laws;
mod touch;

pub use change::LrcChange;
pub use changed::{changed_by, put_changes};
pub use touch::Former;
