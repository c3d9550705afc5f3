//! The words for numbers, and the fields of commands.

ghost use Rattle.std.specs.Prelude.{◌≡◌, option_map};
ghost use Rattle.lrc_records.specs.Words.{status_name, command_name, command_fields, reply_name, refusal_name};
ghost use Rattle.lrc_embed.specs.Names.{IsName};
ghost use Rattle.lrc_embed.specs.Printed.{level_name, mode_name, word_of_code, repair_name};

use crate::exports::image::put_text;
use crate::status::UNKNOWN;
use lrc_book::{Level, Mode};
use lrc_code::Code;
use lrc_records::{command_fields, command_name, refusal_name, reply_name, status_name};
use lrc_text::{level_word, mode_word};

/// The word for a status. It fills the first `length` bytes. If there is less room, nothing is written but the
/// `length` that it needs.
#[unsafe(no_mangle)]
pub extern "C" fn lrc_embed_status_name(status: u32, text: &mut [u8], length: &mut usize) -> u32
    ensures { IsName (status_name status) result text.old text.new length.old length.new }
{
    put_name(status_name(status), text, length)
}

/// The word for a kind of reply. It fills the first `length` bytes. If there is less room, nothing is written but the
/// `length` that it needs.
#[unsafe(no_mangle)]
pub extern "C" fn lrc_embed_reply_name(kind: u8, text: &mut [u8], length: &mut usize) -> u32
    ensures { IsName (reply_name kind) result text.old text.new length.old length.new }
{
    put_name(reply_name(kind), text, length)
}

/// The word for a refusal. It fills the first `length` bytes. If there is less room, nothing is written but the
/// `length` that it needs.
#[unsafe(no_mangle)]
pub extern "C" fn lrc_embed_refusal_name(refusal: u8, text: &mut [u8], length: &mut usize) -> u32
    ensures { IsName (refusal_name refusal) result text.old text.new length.old length.new }
{
    put_name(refusal_name(refusal), text, length)
}

/// The word for a kind of level. It is written as `lrc_embed_status_name` says.
#[unsafe(no_mangle)]
pub extern "C" fn lrc_embed_level_name(kind: u8, text: &mut [u8], length: &mut usize) -> u32
    ensures { IsName (level_name kind) result text.old text.new length.old length.new }
{
    put_name(level_name(kind), text, length)
}

/// The word for a kind of mode. It is written as `lrc_embed_status_name` says.
#[unsafe(no_mangle)]
pub extern "C" fn lrc_embed_mode_name(kind: u8, text: &mut [u8], length: &mut usize) -> u32
    ensures { IsName (mode_name kind) result text.old text.new length.old length.new }
{
    put_name(mode_name(kind), text, length)
}

/// The word for a code. It is written as `lrc_embed_status_name` says.
#[unsafe(no_mangle)]
pub extern "C" fn lrc_embed_code_name(code: u8, text: &mut [u8], length: &mut usize) -> u32
    ensures { IsName (word_of_code code) result text.old text.new length.old length.new }
{
    put_name(word_of_code(code), text, length)
}

/// The word for a kind of repair. It is written as `lrc_embed_status_name` says.
#[unsafe(no_mangle)]
pub extern "C" fn lrc_embed_repair_name(repair: u8, text: &mut [u8], length: &mut usize) -> u32
    ensures { IsName (repair_name repair) result text.old text.new length.old length.new }
{
    put_name(repair_name(repair), text, length)
}

/// The word for a kind of command, with which its line begins. It is written as `lrc_embed_status_name` says.
#[unsafe(no_mangle)]
pub extern "C" fn lrc_embed_command_name(kind: u8, text: &mut [u8], length: &mut usize) -> u32
    ensures { IsName (command_name kind) result text.old text.new length.old length.new }
{
    put_name(command_name(kind), text, length)
}

/// The fields that commands of a kind use, in the order of their lines: 1 is the stripe, 2 the fragment, 3 the epoch, 4
/// the node, and 5 the upgrade domain. They are written as `lrc_embed_status_name` says of a word.
#[unsafe(no_mangle)]
pub extern "C" fn lrc_embed_command_fields(kind: u8, fields: &mut [u8], count: &mut usize) -> u32
    ensures { IsName (command_fields kind) result fields.old fields.new count.old count.new }
{
    put_bytes(command_fields(kind), fields, count)
}

fn level_name(kind: u8) -> Option<&'static str>
    ensures { option_map (λ word. word.now) result ≡ level_name kind }
{
    match kind {
        1 => Some(level_word(Level::Whole)),
        2 => Some(level_word(Level::AtRisk(0))),
        3 => Some(level_word(Level::Unavailable)),
        4 => Some(level_word(Level::Lost)),
        _ => None,
    }
}

fn mode_name(kind: u8) -> Option<&'static str>
    ensures { option_map (λ word. word.now) result ≡ mode_name kind }
{
    match kind {
        1 => Some(mode_word(Mode::Active)),
        2 => Some(mode_word(Mode::Draining)),
        3 => Some(mode_word(Mode::Gone)),
        _ => None,
    }
}

fn word_of_code(code: u8) -> Option<&'static str>
    ensures { option_map (λ word. word.now) result ≡ word_of_code code }
{
    match code {
        1 => Some(Code::Wide.name()),
        2 => Some(Code::Narrow.name()),
        _ => None,
    }
}

fn repair_name(repair: u8) -> Option<&'static str>
    ensures { option_map (λ word. word.now) result ≡ repair_name repair }
{
    match repair {
        1 => Some("local"),
        2 => Some("global"),
        3 => Some("move"),
        4 => Some("local"),
        _ => None,
    }
}

/// Writes a word into the first bytes of a buffer, if there is a word and it has room for it.
pub(super) fn put_name(name: Option<&'static str>, text: &mut [u8], length: &mut usize) -> u32
    ensures { IsName (option_map (λ word. word.now) name.entry) result text.old text.new length.old length.new }
{
    match name {
        Some(name) => put_text(name.as_bytes(), text, length),
        None => UNKNOWN,
    }
}

/// The same of bytes.
fn put_bytes(bytes: Option<&'static [u8]>, buffer: &mut [u8], length: &mut usize) -> u32
    ensures { IsName (option_map (λ bytes. bytes.now) bytes.entry) result buffer.old buffer.new length.old length.new }
{
    match bytes {
        Some(bytes) => put_text(bytes, buffer, length),
        None => UNKNOWN,
    }
}
