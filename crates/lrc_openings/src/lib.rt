//! A book over the nodes of one text that begins in the image of another, or why none does; and the image of a book
//! as a text.
#![tactic(auto)]

mod error;
mod image;
pub mod laws;
mod opening;

pub use error::OpenError;
pub use image::image_text;
pub use opening::{begin, begin_over};
