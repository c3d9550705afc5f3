//! Parses the command whose line a text starts with, in one pass. Nothing else makes commands.

ghost use Rattle.std.specs.Prelude.{◌≡◌, ◌≢◌, ℕ, ◌+◌, ◌<◌, ◌≤◌, ◌^◌, ◌∷◌, [], ◌++◌, List, length, slice_index, codes, decimal, IfSome, IfNone};
ghost use Rattle.lrc_script.specs.Scripts.{command_line, IsInRange};
ghost use Rattle.lrc_script.specs.Cuts.{HasNoCommand, HasNoNumbers};

use crate::forms::{DOMAIN_BOUND, EPOCH_BOUND, FRAGMENT_BOUND, NODE_BOUND, STRIPE_BOUND};
use lrc_code::{Fragment, NodeNo, StripeNo, UpgradeNo};
use lrc_front::{behind, number_behind, number_in_front};
use lrc_rules::Command;

/// The most bytes of a command's line with its end: those of `abandon`, a stripe, a fragment and an epoch.
pub(crate) const LONGEST: usize = 27;

/// Parses the command whose line a text starts with. Returns it and the rest of the text after the line's end, or `None`
/// if the text does not start with the line of a command and its end.
///
/// `AT_END` tells its two uses apart. Each is then a copy with one caller, which the compiler inlines.
pub(crate) fn parse_command<const AT_END: bool>(text: &[u8]) -> Option<(Command, &[u8])>
    // Each byte that is looked at is there.
    requires { LONGEST ≤ length text.now }
    ensures some { IfSome result (λ r. IsInRange r.0 × (text.now ≡ command_line r.0 ++ 10 ∷ r.1.now)) }
    ensures none { IfNone result (HasNoCommand text.now) }
{
    match text[0] {
        b'a' => match report_behind(text, b"abandon ") {
            Some((stripe, fragment, epoch, rest)) => Some((
                Command::Abandon(stripe, fragment, epoch),
                rest,
            )),
            None => None,
        },
        b'd' => done_or_other(text),
        b'f' => match node_behind(text, b"fail ") {
            Some((node, rest)) => Some((Command::Fail(node), rest)),
            None => None,
        },
        b'j' => match node_behind(text, b"join ") {
            Some((node, rest)) => Some((Command::Join(node), rest)),
            None => None,
        },
        b'l' => match pair_behind(text, b"lease ") {
            Some((stripe, fragment, rest)) => Some((Command::Lease(stripe, fragment), rest)),
            None => None,
        },
        b'n' => parse_next(text),
        b'p' => place_or_place6(text),
        b'r' => revoke_or_retire(text),
        b't' => match behind(text, b"tick\n") {
            Some(rest) => Some((Command::Tick, rest)),
            None => None,
        },
        b'u' => up_or_other(text),
        _ => None,
    }
}

/// The same for `next` alone, in a text of any length.
#[inline(always)]
pub(crate) fn parse_next(text: &[u8]) -> Option<(Command, &[u8])>
    ensures some { IfSome result (λ r. IsInRange r.0 × (text.now ≡ command_line r.0 ++ 10 ∷ r.1.now)) }
    ensures none { IfNone result ((rest : List ℕ) → text.now ≢ codes "next\n" ++ rest) }
{
    match behind(text, b"next\n") {
        Some(rest) => Some((Command::Next, rest)),
        None => None,
    }
}

/// The same for texts that start with the letter `d`.
#[inline(always)]
fn done_or_other(text: &[u8]) -> Option<(Command, &[u8])>
    requires long { LONGEST ≤ length text.now }
    requires first { slice_index text.now 0 ≡ 100 }
    ensures some { IfSome result (λ r. IsInRange r.0 × (text.now ≡ command_line r.0 ++ 10 ∷ r.1.now)) }
    ensures none { IfNone result (HasNoCommand text.now) }
{
    match text[2] {
        b'n' => match report_behind(text, b"done ") {
            Some((stripe, fragment, epoch, rest)) => Some((
                Command::Done(stripe, fragment, epoch),
                rest,
            )),
            None => None,
        },
        b'o' => match stripe_behind(text, b"drop ") {
            Some((stripe, rest)) => Some((Command::Drop(stripe), rest)),
            None => None,
        },
        b'w' => match node_behind(text, b"down ") {
            Some((node, rest)) => Some((Command::Down(node), rest)),
            None => None,
        },
        _ => match node_behind(text, b"drain ") {
            Some((node, rest)) => Some((Command::Drain(node), rest)),
            None => None,
        },
    }
}

/// The same for texts that start with the letter `p`.
#[inline(always)]
fn place_or_place6(text: &[u8]) -> Option<(Command, &[u8])>
    requires long { LONGEST ≤ length text.now }
    requires first { slice_index text.now 0 ≡ 112 }
    ensures some { IfSome result (λ r. IsInRange r.0 × (text.now ≡ command_line r.0 ++ 10 ∷ r.1.now)) }
    ensures none { IfNone result (HasNoCommand text.now) }
{
    match text[5] {
        b' ' => match stripe_behind(text, b"place ") {
            Some((stripe, rest)) => Some((Command::Place(stripe), rest)),
            None => None,
        },
        _ => match stripe_behind(text, b"place6 ") {
            Some((stripe, rest)) => Some((Command::Place6(stripe), rest)),
            None => None,
        },
    }
}

/// The same for texts that start with the letter `r`.
#[inline(always)]
fn revoke_or_retire(text: &[u8]) -> Option<(Command, &[u8])>
    requires long { LONGEST ≤ length text.now }
    requires first { slice_index text.now 0 ≡ 114 }
    ensures some { IfSome result (λ r. IsInRange r.0 × (text.now ≡ command_line r.0 ++ 10 ∷ r.1.now)) }
    ensures none { IfNone result (HasNoCommand text.now) }
{
    match text[2] {
        b'v' => match pair_behind(text, b"revoke ") {
            Some((stripe, fragment, rest)) => Some((Command::Revoke(stripe, fragment), rest)),
            None => None,
        },
        _ => match node_behind(text, b"retire ") {
            Some((node, rest)) => Some((Command::Retire(node), rest)),
            None => None,
        },
    }
}

/// The same for texts that start with the letter `u`.
#[inline(always)]
fn up_or_other(text: &[u8]) -> Option<(Command, &[u8])>
    requires long { LONGEST ≤ length text.now }
    requires first { slice_index text.now 0 ≡ 117 }
    ensures some { IfSome result (λ r. IsInRange r.0 × (text.now ≡ command_line r.0 ++ 10 ∷ r.1.now)) }
    ensures none { IfNone result (HasNoCommand text.now) }
{
    match text[2] {
        b' ' => match node_behind(text, b"up ") {
            Some((node, rest)) => Some((Command::Up(node), rest)),
            None => None,
        },
        b'd' => match node_behind(text, b"undrain ") {
            Some((node, rest)) => Some((Command::Undrain(node), rest)),
            None => None,
        },
        _ => upgrade_or_upgraded(text),
    }
}

/// The same for those of them with neither `up` nor `undrain`.
#[inline(always)]
fn upgrade_or_upgraded(text: &[u8]) -> Option<(Command, &[u8])>
    requires long { LONGEST ≤ length text.now }
    requires first { slice_index text.now 0 ≡ 117 }
    requires third { (slice_index text.now 2 ≢ 32) × (slice_index text.now 2 ≢ 100) }
    ensures some { IfSome result (λ r. IsInRange r.0 × (text.now ≡ command_line r.0 ++ 10 ∷ r.1.now)) }
    ensures none { IfNone result (HasNoCommand text.now) }
{
    match text[7] {
        b' ' => match domain_behind(text, b"upgrade ") {
            Some((domain, rest)) => Some((Command::Upgrade(domain), rest)),
            None => None,
        },
        _ => match domain_behind(text, b"upgraded ") {
            Some((domain, rest)) => Some((Command::Upgraded(domain), rest)),
            None => None,
        },
    }
}

// ---- a word and its numbers

/// Parses a word, a stripe and the end of the line at the start of a text. Returns the stripe and the rest of the text.
#[inline(always)]
fn stripe_behind<'a>(text: &'a [u8], word: &[u8]) -> Option<(StripeNo, &'a [u8])>
    requires { length word.now + 4 < length text.now }
    ensures some { IfSome result (λ r. text.now ≡ word.now ++ (decimal r.0.value ++ 10 ∷ r.1.now)) }
    ensures none { IfNone result (HasNoNumbers text.now word.now (4096 ∷ [])) }
{
    match number_behind(text, word, 4, STRIPE_BOUND, b'\n') {
        Some((number, rest)) => Some((StripeNo::new(number as u16).unwrap(), rest)),
        None => None,
    }
}

/// The same for a node.
#[inline(always)]
fn node_behind<'a>(text: &'a [u8], word: &[u8]) -> Option<(NodeNo, &'a [u8])>
    requires { length word.now + 5 < length text.now }
    ensures some { IfSome result (λ r. (r.0.value < 65536) × (text.now ≡ word.now ++ (decimal r.0.value ++ 10 ∷ r.1.now))) }
    ensures none { IfNone result (HasNoNumbers text.now word.now (65536 ∷ [])) }
{
    match number_behind(text, word, 5, NODE_BOUND, b'\n') {
        Some((number, rest)) => Some((NodeNo::new(number as u16).unwrap(), rest)),
        None => None,
    }
}

/// The same for an upgrade domain.
#[inline(always)]
fn domain_behind<'a>(text: &'a [u8], word: &[u8]) -> Option<(UpgradeNo, &'a [u8])>
    requires { length word.now + 3 < length text.now }
    ensures some { IfSome result (λ r. (r.0.value < 256) × (text.now ≡ word.now ++ (decimal r.0.value ++ 10 ∷ r.1.now))) }
    ensures none { IfNone result (HasNoNumbers text.now word.now (256 ∷ [])) }
{
    match number_behind(text, word, 3, DOMAIN_BOUND, b'\n') {
        Some((number, rest)) => Some((UpgradeNo::new(number as u8).unwrap(), rest)),
        None => None,
    }
}

/// The same for a stripe and a fragment.
#[inline(always)]
fn pair_behind<'a>(text: &'a [u8], word: &[u8]) -> Option<(StripeNo, Fragment, &'a [u8])>
    requires { length word.now + 7 < length text.now }
    ensures some { IfSome result (λ r. text.now ≡ word.now ++ (decimal r.0.value ++ 32 ∷ (decimal r.1.value ++ 10 ∷ r.2.now))) }
    ensures none { IfNone result (HasNoNumbers text.now word.now (4096 ∷ 16 ∷ [])) }
{
    match number_behind(text, word, 4, STRIPE_BOUND, b' ') {
        Some((stripe, rest)) => match number_in_front(rest, 2, FRAGMENT_BOUND, b'\n') {
            Some((fragment, rest)) => Some((
                StripeNo::new(stripe as u16).unwrap(),
                Fragment::new(fragment as u8).unwrap(),
                rest,
            )),
            None => None,
        },
        None => None,
    }
}

/// The same for a stripe, a fragment and an epoch.
#[inline(always)]
fn report_behind<'a>(text: &'a [u8], word: &[u8]) -> Option<(StripeNo, Fragment, u32, &'a [u8])>
    requires { length word.now + 18 < length text.now }
    ensures some { IfSome result (λ r. (r.2 < 4294967296) × (text.now ≡ word.now ++ (decimal r.0.value ++ 32 ∷ (decimal r.1.value ++ 32 ∷ (decimal r.2 ++ 10 ∷ r.3.now))))) }
    ensures none { IfNone result (HasNoNumbers text.now word.now (4096 ∷ 16 ∷ 4294967296 ∷ [])) }
{
    match number_behind(text, word, 4, STRIPE_BOUND, b' ') {
        Some((stripe, rest)) => match number_in_front(rest, 2, FRAGMENT_BOUND, b' ') {
            Some((fragment, rest)) => match number_in_front(rest, 10, EPOCH_BOUND, b'\n') {
                Some((epoch, rest)) => Some((
                    StripeNo::new(stripe as u16).unwrap(),
                    Fragment::new(fragment as u8).unwrap(),
                    epoch as u32,
                    rest,
                )),
                None => None,
            },
            None => None,
        },
        None => None,
    }
}
