ghost use Rattle.std.specs.Prelude.{◌≡◌, ◌↔◌, true};
ghost use Rattle.memchr.specs.Find.{is_byte, IsFirstByte};
ghost use Rattle.lrc_script.specs.Cuts.{IsCut};

use memchr::memchr;

/// The number of bytes of a line that are searched one by one. Most lines are shorter, and `memchr` is slower for them.
const SHORT: usize = 16;

/// Returns the first line of a text without its end, and the text after its end, or `None` if the line has no end.
#[inline]
pub(crate) fn cut_line(text: &[u8]) -> (&[u8], Option<&[u8]>)
    ensures { IsCut 10 text.now result.0.now result.1 }
{
    match find_end(text) {
        Some(end) => (&text[..end], Some(&text[end + 1..])),
        None => (text, None),
    }
}

/// Returns the first word of a line, and the text after the space that ends it, or `None` if no space does.
#[inline]
pub(crate) fn cut_word(line: &[u8]) -> (&[u8], Option<&[u8]>)
    ensures { IsCut 32 line.now result.0.now result.1 }
{
    match find(b' ', line) {
        Some(at) => (&line[..at], Some(&line[at + 1..])),
        None => (line, None),
    }
}

/// Returns whether a word is this name. Names are short, so their bytes are compared one by one.
#[inline]
pub(crate) fn is_word(word: &[u8], name: &[u8]) -> bool
    ensures { (result ≡ true) ↔ (word.now ≡ name.now) }
{
    if word.len() != name.len() {
        return false;
    }
    let mut at = 0;
    while at < name.len() {
        if word[at] != name[at] {
            return false;
        }
        at += 1;
    }
    true
}

/// Returns the first index of the byte in a short text.
#[inline]
fn find(byte: u8, text: &[u8]) -> Option<usize>
    ensures { IsFirstByte (is_byte byte) text.now result }
{
    let mut at = 0;
    while at < text.len() {
        if text[at] == byte {
            return Some(at);
        }
        at += 1;
    }
    None
}

/// Returns the index of the end of the first line of a text.
#[inline]
fn find_end(text: &[u8]) -> Option<usize>
    ensures { IsFirstByte (is_byte 10) text.now result }
{
    let short = text.len().min(SHORT);
    match find(b'\n', &text[..short]) {
        Some(end) => Some(end),
        None => match memchr(b'\n', &text[short..]) {
            Some(end) => Some(short + end),
            None => None,
        },
    }
}
