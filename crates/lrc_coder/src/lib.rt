//! The two erasure codes over buffers: parities are made of data, and a lost fragment of others. It is for stores without
//! a coder of their own, and to test others by. It allocates nothing.
#![tactic(auto)]

mod coding;
mod error;
mod matrices;
mod products;
mod sums;

pub use coding::{PARITIES, encode, rebuild};
pub use error::CodingError;
pub use matrices::{MATRIX, matrix, matrix_count};
