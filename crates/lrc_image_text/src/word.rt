//! Words of which a line may have several: numbers and homes.

ghost use Rattle.std.specs.Prelude.{◌≡◌, ◌≢◌, ◌<◌, List, ℕ, [], ◌∷◌, ◌++◌, length, All, OnOk, false, IfSome, IfNone, codes, decimal, map};
ghost use Rattle.std.specs.Char.{is_ascii_digit};
ghost use Rattle.lrc_topology.specs.declared.seat.Seat.{Seat};
ghost use Rattle.lrc_image_text.specs.Lines.{home_word, seat_word, IsSeat, IsHome, spaced};
ghost use Rattle.lrc_image_text.specs.Fronts.{end_byte, words_on};

use crate::number::number_to;
use lrc_code::NodeNo;
use lrc_front::behind;
use lrc_topology::Seat;
use std::alloc::AllocError;

pub(crate) trait Word: Copy {
    ghost word: { Self → List ℕ };

    ghost fits: { Self → Type 0 };

    /// Reads a word and the byte behind it at the start of a text. Returns the word and the rest of
    /// the text, or `None` if the text does not start so.
    fn in_front(text: &[u8], is_last: bool) -> Option<(Self, &[u8])>
        ensures some { IfSome result (λ r. fits r.0 × (text.now ≡ word r.0 ++ end_byte is_last ∷ r.1.now)) }
        ensures only { IfSome result (λ r. (w : Self) (rest : List ℕ) → fits w
            → text.now ≡ word w ++ end_byte is_last ∷ rest → rest ≡ r.1.now) }
        ensures none { IfNone result ((w : Self) (rest : List ℕ) → fits w
            → text.now ≢ word w ++ end_byte is_last ∷ rest) };

    /// Adds the word to a text.
    fn push_to(&self, out: &mut Vec<u8>) -> Result<(), AllocError>
        ensures { OnOk result (out.new.items ≡ out.old.items ++ word self.now) };
}

impl Word for u32 {
    ghost word = { decimal };

    ghost fits = { λ n. n < 4294967296 };

    fn in_front(text: &[u8], is_last: bool) -> Option<(u32, &[u8])> {
        match number_to(text, COUNT_BOUND, end_byte(is_last)) {
            Some((number, rest)) => Some((number as u32, rest)),
            None => None,
        }
    }

    fn push_to(&self, out: &mut Vec<u8>) -> Result<(), AllocError> {
        push_number(out, u64::from(*self))
    }
}

impl Word for Option<Seat> {
    ghost word = { home_word };

    ghost fits = { IsHome };

    fn in_front(text: &[u8], is_last: bool) -> Option<(Option<Seat>, &[u8])> {
        match behind(text, no_home(is_last)) {
            Some(rest) => Some((None, rest)),
            None => match seat_to(text, end_byte(is_last)) {
                Some((seat, rest)) => Some((Some(seat), rest)),
                None => None,
            },
        }
    }

    fn push_to(&self, out: &mut Vec<u8>) -> Result<(), AllocError> {
        match self {
            Some(seat) => push_seat(out, seat),
            None => out.extend_from_slice(b"-"),
        }
    }
}

/// The bound of counts and ticks.
pub(crate) const COUNT_BOUND: u64 = 4294967296;

/// The bound of the numbers of nodes, and of those of slots.
pub(crate) const NODE_BOUND: u64 = 65536;

/// Returns the byte behind a word, which is the last of its line or not.
fn end_byte(is_last: bool) -> u8
    ensures { result ≡ end_byte is_last }
{
    if is_last { b'\n' } else { b' ' }
}

/// Returns the word of no home, and the byte behind it.
fn no_home(is_last: bool) -> &'static [u8]
    ensures { result.now ≡ codes "-" ++ end_byte is_last ∷ [] }
{
    if is_last { b"-\n" } else { b"- " }
}

/// Reads a seat and the byte `end` at the start of a text. Returns the seat and the rest of the
/// text, or `None` if the text does not start so.
pub(crate) fn seat_to(text: &[u8], end: u8) -> Option<(Seat, &[u8])>
    requires { is_ascii_digit end ≡ false }
    ensures some { IfSome result (λ r. IsSeat r.0 × (text.now ≡ seat_word r.0 ++ end ∷ r.1.now)) }
    ensures none { IfNone result ((seat : Seat) (rest : List ℕ) → IsSeat seat
        → text.now ≢ seat_word seat ++ end ∷ rest) }
{
    match number_to(text, NODE_BOUND, b':') {
        Some((node, rest)) => match number_to(rest, NODE_BOUND, end) {
            Some((slot, rest)) => {
                let node = NodeNo { value: node as u16 };
                let slot = slot as u16;
                Some((Seat { node, slot }, rest))
            }
            None => None,
        },
        None => None,
    }
}

/// Reads as many words as there is room for, and the end of their line, behind the space before the
/// first word. Returns the rest of the text, or `None` if the text does not start so.
pub(crate) fn words_to_end<'a, W: Word>(text: &'a [u8], words: &mut [W]) -> Option<&'a [u8]>
    requires { 0 < length words.old }
    ensures size { length words.new ≡ length words.old }
    ensures some { IfSome result (λ rest. All W.fits words.new
        × (32 ∷ text.now ≡ words_on (map W.word words.new) rest.now)) }
    ensures none { IfNone result ((ws : List W) (rest : List ℕ) → length ws ≡ length words.old → All W.fits ws
        → 32 ∷ text.now ≢ words_on (map W.word ws) rest) }
{
    let mut rest = text;
    let mut at = 0;
    while at < words.len() {
        let is_last = at + 1 == words.len();
        match read_word(rest, is_last, &mut words[at]) {
            Some(behind) => rest = behind,
            None => return None,
        }
        at += 1;
    }
    Some(rest)
}

/// Reads one of them.
fn read_word<'a, W: Word>(text: &'a [u8], is_last: bool, word: &mut W) -> Option<&'a [u8]>
    ensures some { IfSome result (λ rest. W.fits word.new
        × (text.now ≡ W.word word.new ++ end_byte is_last ∷ rest.now)) }
    ensures only { IfSome result (λ left. (w : W) (rest : List ℕ) → W.fits w
        → text.now ≡ W.word w ++ end_byte is_last ∷ rest → rest ≡ left.now) }
    ensures none { IfNone result ((w : W) (rest : List ℕ) → W.fits w
        → text.now ≢ W.word w ++ end_byte is_last ∷ rest) }
{
    match W::in_front(text, is_last) {
        Some((read, rest)) => {
            *word = read;
            Some(rest)
        }
        None => None,
    }
}

/// Adds a number to a text.
pub(crate) fn push_number(out: &mut Vec<u8>, number: u64) -> Result<(), AllocError>
    ensures { OnOk result (out.new.items ≡ out.old.items ++ decimal number) }
{
    let mut digits = itoa::Buffer::new();
    out.extend_from_slice(digits.format(number).as_bytes())
}

/// Adds a seat to a text.
pub(crate) fn push_seat(out: &mut Vec<u8>, seat: &Seat) -> Result<(), AllocError>
    ensures { OnOk result (out.new.items ≡ out.old.items ++ seat_word seat.now) }
{
    push_number(out, u64::from(seat.node.value))?;
    out.extend_from_slice(b":")?;
    push_number(out, u64::from(seat.slot))
}

/// Adds words to a text, with a space before each.
pub(crate) fn push_words<W: Word>(out: &mut Vec<u8>, words: &[W]) -> Result<(), AllocError>
    ensures { OnOk result (out.new.items ≡ out.old.items ++ spaced (map W.word words.now)) }
{
    for word in words {
        out.extend_from_slice(b" ")?;
        word.push_to(out)?;
    }
    Ok(())
}
