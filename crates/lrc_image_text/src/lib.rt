//! The text of an image, written and read. Each image has one text, and a text is that of one
//! image.
//!
//! A text has lines of words, each ended by LF. `specs/Lines` says what a line is, and
//! `specs/Texts` which lines an image has, which line is that of a row, and which line of another
//! text is bad.
#![tactic(auto)]

mod error;
pub mod laws;
mod line;
mod number;
mod part;
mod read;
mod row;
mod word;
mod write;

pub use error::ImageTextError;
pub use line::row_line;
pub use read::read_image;
pub use write::push_image;
