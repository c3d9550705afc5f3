//! The functions that C calls. Each returns a status, and writes its result only if that is `DONE`. With another status
//! `lrc_embed_open`, `lrc_embed_open_image` and `lrc_embed_replay` may write where a text or an entry was refused,
//! `lrc_embed_calls` which calls it made, and `lrc_embed_read_command` why a line was refused. With `SHORT` the room that
//! is needed is written, and the forecasts write `safe` too.

mod batch;
mod call;
mod changes;
mod coding;
mod entries;
mod follow;
mod forecast;
mod forget;
mod history;
mod image;
mod lines;
mod looks;
mod names;
mod open;
mod open_image;
mod place;
mod publish;
mod publish_call;
mod recipe;
mod recipes;
mod replay;
mod risk;
mod tables;
mod view;
mod walks;
mod words;
