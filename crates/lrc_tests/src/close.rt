//! Drops what holds a book. In functions of their own these drops are proved once.

use lrc_sessions::{Closing, Parts};

pub(crate) fn close(closing: Closing) {
    let Closing { book, made: _made } = closing;
    book.close();
}

pub(crate) fn close_parts(_parts: Parts) {}
