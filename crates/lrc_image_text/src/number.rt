//! Numbers at the start of a text of any length.

ghost use Rattle.std.specs.Prelude.{◌≡◌, ◌≢◌, ℕ, ◌+◌, ◌^◌, ◌<◌, ◌≤◌, true, false, List, ◌∷◌, ◌++◌, length, take, get_or, decimal, IfSome, IfNone};
ghost use Rattle.std.specs.Char.{is_ascii_digit};
ghost use Rattle.std.specs.List.{list_all};
ghost use Rattle.std.specs.Str.Parse.{digits_value};

use lrc_front::{behind, number_in_front};

/// The most digits of a number of 32 bits.
const DIGITS: usize = 10;

/// The most digits of a number of 64 bits.
const LONG_DIGITS: usize = 20;

/// Reads a number below `bound` and the byte `end` at the start of a text. Returns the number and
/// the rest of the text, or `None` if the text does not start so.
pub(crate) fn number_to(text: &[u8], bound: u64, end: u8) -> Option<(u64, &[u8])>
    requires { (bound ≤ 4294967296) × (is_ascii_digit end ≡ false) }
    ensures some { IfSome result (λ r. (r.0 < bound) × (text.now ≡ decimal r.0 ++ end ∷ r.1.now)) }
    ensures none { IfNone result ((n : ℕ) (rest : List ℕ) → n < bound → text.now ≢ decimal n ++ end ∷ rest) }
{
    if text.is_empty() {
        return None;
    }
    number_in_front(text, DIGITS.min(text.len() - 1), bound, end)
}

/// The same behind a word.
pub(crate) fn number_behind<'a>(
    text: &'a [u8],
    word: &[u8],
    bound: u64,
    end: u8,
) -> Option<(u64, &'a [u8])>
    requires { (bound ≤ 4294967296) × (is_ascii_digit end ≡ false) }
    ensures some { IfSome result (λ r. (r.0 < bound) × (text.now ≡ word.now ++ (decimal r.0 ++ end ∷ r.1.now))) }
    ensures none { IfNone result ((n : ℕ) (rest : List ℕ) → n < bound → text.now ≢ word.now ++ (decimal n ++ end ∷ rest)) }
{
    match behind(text, word) {
        Some(rest) => number_to(rest, bound, end),
        None => None,
    }
}

/// Reads a number of 64 bits and the end of its line at the start of a text.
pub(crate) fn long_number_to_end(text: &[u8]) -> Option<(u64, &[u8])>
    ensures some { IfSome result (λ r. (r.0 < 2 ^ 64) × (text.now ≡ decimal r.0 ++ 10 ∷ r.1.now)) }
    ensures none { IfNone result ((n : ℕ) (rest : List ℕ) → n < 2 ^ 64 → text.now ≢ decimal n ++ 10 ∷ rest) }
{
    if text.is_empty() {
        return None;
    }
    let most = LONG_DIGITS.min(text.len() - 1);
    let (number, at) = digits_in_front(text, most);
    if at == 0
        || text[at] != b'\n'
        || (at > 1 && text[0] == b'0')
        || number > u128::from(u64::MAX)
    {
        return None;
    }
    Some((number as u64, &text[at + 1..]))
}

/// Reads at most `most` digits at the start of a text. Returns the number that they write, and how
/// many they are.
fn digits_in_front(text: &[u8], most: usize) -> (u128, usize)
    requires { (most ≤ 20) × (most < length text.now) }
    ensures within { result.1 ≤ most }
    ensures digits { list_all is_ascii_digit (take result.1 text.now) ≡ true }
    ensures value { result.0 ≡ digits_value 10 (take result.1 text.now) }
    ensures stopped { result.1 < most → is_ascii_digit (get_or text.now result.1 0) ≡ false }
{
    let mut number = 0;
    let mut at = 0;
    while at < most && text[at].is_ascii_digit() {
        number = number * 10 + u128::from(text[at] - b'0');
        at += 1;
    }
    (number, at)
}
