//! Masks of losses: reading one, and its line.

ghost use Rattle.std.specs.Prelude.{◌≡◌, ◌++◌, OnOk, string_bytes};
ghost use Rattle.lrc_text.specs.Masks.{is_mask, mask_of, counts_text, margin_text, losses_line, mask_text};

use lrc_code::{Class, Code, LossMask};
use std::alloc::AllocError;

/// Reads a mask: exactly four hexadecimal digits, in which only bits of fragments of the code are set.
pub fn parse_mask(code: Code, word: &str) -> Option<u16>
    ensures { result ≡ mask_of code word.now }
{
    if !is_mask(word.as_bytes()) {
        return None;
    }
    let bits = u16::from_str_radix(word, 16).ok()?;
    if LossMask::from_bits(bits).fits(code) {
        Some(bits)
    } else {
        None
    }
}

fn is_mask(word: &[u8]) -> bool
    ensures { result ≡ is_mask word.now }
{
    word.len() == 4 && word.iter().all(|byte| byte.is_ascii_hexdigit())
}

/// Adds the line of a mask of a stripe of the code, or of a word that is no mask.
pub fn push_mask_line(out: &mut String, code: Code, mask: Option<u16>) -> Result<(), AllocError>
    ensures { OnOk result (string_bytes out.new ≡ string_bytes out.old ++ mask_text code mask) }
{
    match mask {
        Some(bits) => push_losses(out, code, LossMask::from_bits(bits)),
        None => out.push_str("mask refused\n"),
    }
}

/// Adds the line of these losses of a stripe of the code.
fn push_losses(out: &mut String, code: Code, losses: LossMask) -> Result<(), AllocError>
    ensures { OnOk result (string_bytes out.new ≡ string_bytes out.old ++ losses_line code losses.bits) }
{
    let a = losses.class_losses_in(code, Class::A);
    let b = losses.class_losses_in(code, Class::B);
    let g = losses.class_losses_in(code, Class::G);
    push_counts(out, a, b, g)?;
    push_margin(out, losses.margin_in(code))
}

fn push_counts(out: &mut String, a: u8, b: u8, g: u8) -> Result<(), AllocError>
    ensures { OnOk result (string_bytes out.new ≡ string_bytes out.old ++ counts_text a b g) }
{
    write!(out, "A {a} B {b} G {g}")
}

fn push_margin(out: &mut String, margin: Option<u8>) -> Result<(), AllocError>
    ensures { OnOk result (string_bytes out.new ≡ string_bytes out.old ++ margin_text margin) }
{
    match margin {
        Some(margin) => write!(out, " recoverable margin {margin}\n"),
        None => out.push_str(" not recoverable\n"),
    }
}
