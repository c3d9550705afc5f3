//! The texts of replies, of tables and of masks of losses.
#![tactic(auto)]

mod digits;
mod masks;
mod parts;
mod table;
mod tables;
mod texts;

pub use masks::{parse_mask, push_mask_line};
pub use tables::{level_word, mode_word, online_word, with_tables};
pub use texts::{LINE_ROOM, push_lines, push_reply, push_script_line};
