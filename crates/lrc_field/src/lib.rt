//! The two erasure codes over bytes: the field, the generator matrices, and how lost fragments are rebuilt.
#![tactic(auto)]

mod equations;
mod field;
pub mod laws;
mod left_out;
mod matrix;
mod recipes;

pub use field::{add, inverse, multiply};
pub use matrix::{DATA, data_count, row};
pub use recipes::Recipe;
