//! Why an input is refused: the line that says so, and the words before it.
#![tactic(auto)]

pub mod laws;
mod lines;
mod refusal;
mod words;

pub use refusal::InputRefusal;
