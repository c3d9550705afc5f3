//! Parts of the lines of rows, read at the start of a text.

ghost use Rattle.std.specs.Prelude.{◌≡◌, ◌≢◌, ℕ, ◌<◌, Bool, List, ◌∷◌, ◌++◌, IfSome, IfNone, codes, decimal};
ghost use Rattle.lrc_code.specs.declared.numbers.StripeNo.{StripeNo};
ghost use Rattle.lrc_code.specs.declared.numbers.Fragment.{Fragment};
ghost use Rattle.lrc_code.specs.declared.numbers.SessionNo.{SessionNo};
ghost use Rattle.lrc_topology.specs.declared.seat.Seat.{Seat};
ghost use Rattle.lrc_terms.specs.declared.mode.Mode.{Mode};
ghost use Rattle.lrc_images.specs.declared.image.StripeRow.{StripeRow};
ghost use Rattle.lrc_image_text.specs.Lines.{Stripe, seat_word, standing_words, IsSeat, IsStripeRow};
ghost use Rattle.lrc_image_text.specs.Fronts.{words_on, line_on, HasLine};

use crate::number::{number_behind, number_to};
use crate::row::code_word;
use crate::word::{COUNT_BOUND, seat_to, words_to_end};
use lrc_code::{Code, FRAGMENTS, Fragment, STRIPES, SessionNo, StripeNo};
use lrc_front::behind;
use lrc_images::StripeRow;
use lrc_rules::Mode;
use lrc_topology::Seat;

/// Reads a word, which has its space, a stripe and a space.
pub(crate) fn stripe_behind<'a>(text: &'a [u8], word: &[u8]) -> Option<(StripeNo, &'a [u8])>
    ensures some { IfSome result (λ r. text.now ≡ word.now ++ (decimal r.0.value ++ 32 ∷ r.1.now)) }
    ensures none { IfNone result ((s : StripeNo) (rest : List ℕ) → text.now ≢ word.now ++ (decimal s.value ++ 32 ∷ rest)) }
{
    match number_behind(text, word, STRIPES as u64, b' ') {
        Some((number, rest)) => Some((StripeNo::new(number as u16).unwrap(), rest)),
        None => None,
    }
}

/// Reads how a node stands, behind the space after its number, and the end of the line.
pub(crate) fn standing_to_end(text: &[u8]) -> Option<(Mode, bool, &[u8])>
    ensures some { IfSome result (λ r. HasLine r.0 r.1 × (32 ∷ text.now ≡ words_on (standing_words r.0 r.1) r.2.now)) }
    ensures none { IfNone result ((mode : Mode) (is_down : Bool) (rest : List ℕ) → HasLine mode is_down
        → 32 ∷ text.now ≢ words_on (standing_words mode is_down) rest) }
{
    if let Some(rest) = behind(text, b"down\n") {
        return Some((Mode::Active, true, rest));
    }
    if let Some(rest) = behind(text, b"draining\n") {
        return Some((Mode::Draining, false, rest));
    }
    if let Some(rest) = behind(text, b"draining down\n") {
        return Some((Mode::Draining, true, rest));
    }
    if let Some(rest) = behind(text, b"gone\n") {
        return Some((Mode::Gone, false, rest));
    }
    if let Some(rest) = behind(text, b"gone down\n") {
        return Some((Mode::Gone, true, rest));
    }
    None
}

/// Reads the line of a stripe of the code at the start of a text.
pub(crate) fn stripe_line_in_front(text: &[u8], code: Code) -> Option<(StripeRow, &[u8])>
    ensures code { IfSome result (λ r. r.0.code ≡ code) }
    ensures row { IfSome result (λ r. IsStripeRow r.0) }
    ensures some { IfSome result (λ r. text.now ≡ line_on (Stripe r.0) r.1.now) }
    ensures none { IfNone result ((row : StripeRow) (rest : List ℕ) → row.code ≡ code → IsStripeRow row
        → text.now ≢ line_on (Stripe row) rest) }
{
    let mut homes = [None; FRAGMENTS];
    match stripe_behind(text, code_word(code)) {
        Some((stripe, rest)) => match words_to_end(
            rest,
            &mut homes[..usize::from(code.fragments())],
        ) {
            Some(rest) => Some((
                StripeRow {
                    stripe,
                    code,
                    homes,
                },
                rest,
            )),
            None => None,
        },
        None => None,
    }
}

/// Reads the first words of a lease's line: its stripe, its fragment and a space.
pub(crate) fn lease_place(text: &[u8]) -> Option<(StripeNo, Fragment, &[u8])>
    ensures some { IfSome result (λ r. text.now ≡ codes "lease " ++ (decimal r.0.value ++ 32 ∷ (decimal r.1.value ++ 32 ∷ r.2.now))) }
    ensures none { IfNone result ((s : StripeNo) (f : Fragment) (rest : List ℕ)
        → text.now ≢ codes "lease " ++ (decimal s.value ++ 32 ∷ (decimal f.value ++ 32 ∷ rest))) }
{
    match stripe_behind(text, b"lease ") {
        Some((stripe, rest)) => match number_to(rest, FRAGMENTS as u64, b' ') {
            Some((number, rest)) => Some((stripe, Fragment::new(number as u8).unwrap(), rest)),
            None => None,
        },
        None => None,
    }
}

/// Reads the other words of a lease's line: its holder, its target and its expiry, and the end of
/// the line.
pub(crate) fn lease_terms(text: &[u8]) -> Option<(SessionNo, Seat, u32, &[u8])>
    ensures fits { IfSome result (λ r. IsSeat r.1 × (r.2 < 4294967296)) }
    ensures some { IfSome result (λ r. text.now ≡ decimal r.0.value ++ 32 ∷ (seat_word r.1 ++ 32 ∷ (decimal r.2 ++ 10 ∷ r.3.now))) }
    ensures none { IfNone result ((holder : SessionNo) (target : Seat) (expiry : ℕ) (rest : List ℕ)
        → IsSeat target → expiry < 4294967296
        → text.now ≢ decimal holder.value ++ 32 ∷ (seat_word target ++ 32 ∷ (decimal expiry ++ 10 ∷ rest))) }
{
    match holder_to(text) {
        Some((holder, rest)) => match seat_to(rest, b' ') {
            Some((target, rest)) => match number_to(rest, COUNT_BOUND, b'\n') {
                Some((expiry, rest)) => Some((holder, target, expiry as u32, rest)),
                None => None,
            },
            None => None,
        },
        None => None,
    }
}

/// Reads a session and a space.
fn holder_to(text: &[u8]) -> Option<(SessionNo, &[u8])>
    ensures some { IfSome result (λ r. text.now ≡ decimal r.0.value ++ 32 ∷ r.1.now) }
    ensures none { IfNone result ((holder : SessionNo) (rest : List ℕ) → text.now ≢ decimal holder.value ++ 32 ∷ rest) }
{
    match number_to(text, SESSION_BOUND, b' ') {
        Some((0, _)) => None,
        Some((number, rest)) => Some((SessionNo::new(number as u8).unwrap(), rest)),
        None => None,
    }
}

/// The numbers of sessions are below it.
const SESSION_BOUND: u64 = 9;
