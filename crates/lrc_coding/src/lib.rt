//! What a worker is told of the bytes of a stripe, as texts: how a fragment is rebuilt, and the generator matrix of a code.
#![tactic(auto)]

pub mod laws;
mod matrix;
mod recipes;
mod refusal;
mod table;

pub use lrc_field::Recipe;
pub use matrix::push_matrix;
pub use recipes::recipe_for;
pub use refusal::RecipeRefusal;
pub use table::push_recipe;
