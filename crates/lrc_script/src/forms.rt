ghost use Rattle.std.specs.Prelude.{◌≡◌, ◌≤◌, ◌^◌, [], ◌∷◌, ◌++◌, All, Some, None, map, option_map, IfSome, IfNone};
ghost use Rattle.std.specs.Prelude.{decimal, string_bytes, OnOk};
ghost use Rattle.lrc_script.specs.Scripts.{form_in, form_of, numbers_text, command_line};
ghost use Rattle.lrc_script.specs.Cuts.{row_form};

use crate::cut::is_word;
use lrc_code::{FRAGMENTS, Fragment, STRIPES, StripeNo};
use lrc_rules::Command;
use std::alloc::AllocError;

// The bounds of numbers in commands. Each number is below its bound.
pub(crate) const STRIPE_BOUND: u64 = STRIPES as u64;

pub(crate) const FRAGMENT_BOUND: u64 = FRAGMENTS as u64;

pub(crate) const NODE_BOUND: u64 = 65536;

pub(crate) const DOMAIN_BOUND: u64 = 256;

pub(crate) const EPOCH_BOUND: u64 = 4294967296;

/// The word of each command, and for each number after it the bound that it is below.
const FORMS: [(&[u8], &[u64]); 18] = [
    (b"place", &[STRIPE_BOUND]),
    (b"place6", &[STRIPE_BOUND]),
    (b"drop", &[STRIPE_BOUND]),
    (b"lease", &[STRIPE_BOUND, FRAGMENT_BOUND]),
    (b"next", &[]),
    (b"tick", &[]),
    (b"done", &[STRIPE_BOUND, FRAGMENT_BOUND, EPOCH_BOUND]),
    (b"abandon", &[STRIPE_BOUND, FRAGMENT_BOUND, EPOCH_BOUND]),
    (b"revoke", &[STRIPE_BOUND, FRAGMENT_BOUND]),
    (b"fail", &[NODE_BOUND]),
    (b"down", &[NODE_BOUND]),
    (b"up", &[NODE_BOUND]),
    (b"drain", &[NODE_BOUND]),
    (b"undrain", &[NODE_BOUND]),
    (b"retire", &[NODE_BOUND]),
    (b"join", &[NODE_BOUND]),
    (b"upgrade", &[DOMAIN_BOUND]),
    (b"upgraded", &[DOMAIN_BOUND]),
];

/// Returns the bounds of the numbers after a command word, in order, or `None` for any other word.
pub(crate) fn bounds_of(word: &[u8]) -> Option<&'static [u64]>
    ensures some { IfSome result (λ bounds. option_map (λ form. form.bounds) (form_of word.now) ≡ Some bounds.now) }
    ensures narrow { IfSome result (λ bounds. All (λ bound. bound ≤ 2 ^ 32) bounds.now) }
    ensures none { IfNone result (form_of word.now ≡ None) }
{
    bounds_in(&FORMS, word)
}

/// Returns the bounds that a table has for a word, or `None` if it lacks the word.
fn bounds_in(forms: &[(&[u8], &'static [u64])], word: &[u8]) -> Option<&'static [u64]>
    ensures some { IfSome result (λ bounds. option_map (λ form. form.bounds) (form_in (map row_form forms.now) word.now) ≡ Some bounds.now) }
    ensures none { IfNone result (form_in (map row_form forms.now) word.now ≡ None) }
{
    for (name, bounds) in forms {
        if is_word(word, name) {
            return Some(bounds);
        }
    }
    None
}

/// Adds the line of a command, without its end.
///
/// # Errors
///
/// Only for want of memory; then a beginning of the line may have been added.
pub fn push_command(out: &mut String, command: Command) -> Result<(), AllocError>
    ensures { OnOk result (string_bytes out.new ≡ string_bytes out.old ++ command_line command) }
{
    match command {
        Command::Place(stripe) => push_number(out, "place ", stripe.value as u32),
        Command::Place6(stripe) => push_number(out, "place6 ", stripe.value as u32),
        Command::Drop(stripe) => push_number(out, "drop ", stripe.value as u32),
        Command::Lease(stripe, fragment) => push_pair(out, "lease ", stripe, fragment),
        Command::Next => out.push_str("next"),
        Command::Done(stripe, fragment, epoch) => push_report(
            out, "done ", stripe, fragment, epoch,
        ),
        Command::Abandon(stripe, fragment, epoch) => {
            push_report(out, "abandon ", stripe, fragment, epoch)
        }
        Command::Revoke(stripe, fragment) => push_pair(out, "revoke ", stripe, fragment),
        Command::Fail(node) => push_number(out, "fail ", node.value as u32),
        Command::Down(node) => push_number(out, "down ", node.value as u32),
        Command::Up(node) => push_number(out, "up ", node.value as u32),
        Command::Drain(node) => push_number(out, "drain ", node.value as u32),
        Command::Undrain(node) => push_number(out, "undrain ", node.value as u32),
        Command::Retire(node) => push_number(out, "retire ", node.value as u32),
        Command::Join(node) => push_number(out, "join ", node.value as u32),
        Command::Upgrade(domain) => push_number(out, "upgrade ", domain.value as u32),
        Command::Upgraded(domain) => push_number(out, "upgraded ", domain.value as u32),
        Command::Tick => out.push_str("tick"),
    }
}

/// Adds a word, which ends with a space, and a number.
fn push_number(out: &mut String, word: &str, number: u32) -> Result<(), AllocError>
    ensures { OnOk result (string_bytes out.new ≡ string_bytes out.old ++ (word.now ++ decimal number)) }
{
    write!(out, "{word}{number}")
}

/// Adds a word, which ends with a space, and the numbers of a fragment and its stripe.
fn push_pair(
    out: &mut String,
    word: &str,
    stripe: StripeNo,
    fragment: Fragment,
) -> Result<(), AllocError>
    ensures { OnOk result (string_bytes out.new
        ≡ string_bytes out.old ++ (word.now ++ numbers_text (stripe.value ∷ fragment.value ∷ []))) }
{
    let first = stripe.value;
    let second = fragment.value;
    write!(out, "{word}{first} {second}")
}

/// Adds a word, which ends with a space, the numbers of a fragment and its stripe, and an epoch.
fn push_report(
    out: &mut String,
    word: &str,
    stripe: StripeNo,
    fragment: Fragment,
    epoch: u32,
) -> Result<(), AllocError>
    ensures { OnOk result (string_bytes out.new
        ≡ string_bytes out.old ++ (word.now ++ numbers_text (stripe.value ∷ fragment.value ∷ epoch ∷ []))) }
{
    let first = stripe.value;
    let second = fragment.value;
    write!(out, "{word}{first} {second} {epoch}")
}
