//! Streams whose contracts tell what was read or written: reading all of one, and writing all to one.
#![tactic(auto)]

mod streams;

pub use streams::{Plain, RunFault, Sink, Source, read_all, write_all};
