//! The lines of rows.

ghost use Rattle.std.specs.Prelude.{◌≡◌, [], ◌∷◌, ◌++◌, OnOk, IfSome, IfNone, codes, decimal, map};
ghost use Rattle.lrc_image_text.specs.Lines.{Line, Node, Stripe, Grants, Lease, line_text, lines_text, code_word, spaced, standing_words, IsReadable};
ghost use Rattle.lrc_image_text.specs.Fronts.{line_on, HasNone};

use crate::number::number_behind;
use crate::part::{lease_place, lease_terms, standing_to_end, stripe_behind, stripe_line_in_front};
use crate::word::{NODE_BOUND, push_number, push_words, words_to_end};
use lrc_code::{Code, FRAGMENTS, NodeNo};
use lrc_images::{GrantRow, LeaseRow, NodeRow, StripeRow};
use lrc_rules::Mode;
use std::alloc::AllocError;

/// A row of an image, with a line of its own.
pub(crate) trait Row: Copy {
    ghost line: { Self → Line };

    /// Reads the line of a row at the start of a text. Returns the row and the rest of the text, or
    /// `None` if the text does not start so.
    fn in_front(text: &[u8]) -> Option<(Self, &[u8])>
        ensures some { IfSome result (λ r. IsReadable (line r.0) × (text.now ≡ line_on (line r.0) r.1.now)) }
        ensures none { IfNone result (HasNone line text.now) };

    /// Adds the line of the row to a text.
    fn push_to(&self, out: &mut Vec<u8>) -> Result<(), AllocError>
        ensures { OnOk result (out.new.items ≡ out.old.items ++ line_text (line self.now)) };
}

impl Row for NodeRow {
    ghost line = { Node };

    fn in_front(text: &[u8]) -> Option<(NodeRow, &[u8])> {
        match number_behind(text, b"node ", NODE_BOUND, b' ') {
            Some((number, rest)) => match standing_to_end(rest) {
                Some((mode, is_down, rest)) => {
                    let node = NodeNo {
                        value: number as u16,
                    };
                    Some((
                        NodeRow {
                            node,
                            mode,
                            is_down,
                        },
                        rest,
                    ))
                }
                None => None,
            },
            None => None,
        }
    }

    fn push_to(&self, out: &mut Vec<u8>) -> Result<(), AllocError> {
        out.extend_from_slice(b"node ")?;
        push_number(out, u64::from(self.node.value))?;
        out.extend_from_slice(standing_words(self.mode, self.is_down))
    }
}

impl Row for StripeRow {
    ghost line = { Stripe };

    fn in_front(text: &[u8]) -> Option<(StripeRow, &[u8])> {
        match stripe_line_in_front(text, Code::Wide) {
            Some((row, rest)) => Some((row, rest)),
            None => stripe_line_in_front(text, Code::Narrow),
        }
    }

    fn push_to(&self, out: &mut Vec<u8>) -> Result<(), AllocError> {
        out.extend_from_slice(code_word(self.code))?;
        push_number(out, u64::from(self.stripe.value))?;
        push_words(out, &self.homes[..usize::from(self.code.fragments())])?;
        out.extend_from_slice(b"\n")
    }
}

impl Row for GrantRow {
    ghost line = { Grants };

    fn in_front(text: &[u8]) -> Option<(GrantRow, &[u8])> {
        let mut granted = [0; FRAGMENTS];
        match stripe_behind(text, b"granted ") {
            Some((stripe, rest)) => match words_to_end(rest, granted.as_mut_slice()) {
                Some(rest) => Some((GrantRow { stripe, granted }, rest)),
                None => None,
            },
            None => None,
        }
    }

    fn push_to(&self, out: &mut Vec<u8>) -> Result<(), AllocError> {
        out.extend_from_slice(b"granted ")?;
        push_number(out, u64::from(self.stripe.value))?;
        push_words(out, self.granted.as_slice())?;
        out.extend_from_slice(b"\n")
    }
}

impl Row for LeaseRow {
    ghost line = { Lease };

    fn in_front(text: &[u8]) -> Option<(LeaseRow, &[u8])> {
        match lease_place(text) {
            Some((stripe, fragment, rest)) => match lease_terms(rest) {
                Some((holder, target, expiry, rest)) => Some((
                    LeaseRow {
                        stripe,
                        fragment,
                        holder,
                        target,
                        expiry,
                    },
                    rest,
                )),
                None => None,
            },
            None => None,
        }
    }

    fn push_to(&self, out: &mut Vec<u8>) -> Result<(), AllocError> {
        push_lease_numbers(out, self)?;
        push_words(out, [Some(self.target)].as_slice())?;
        push_words(out, [self.expiry].as_slice())?;
        out.extend_from_slice(b"\n")
    }
}

/// Adds the first words of a lease's line: its stripe, its fragment and its holder.
fn push_lease_numbers(out: &mut Vec<u8>, row: &LeaseRow) -> Result<(), AllocError>
    ensures { OnOk result (out.new.items ≡ out.old.items ++ (codes "lease" ++ spaced (map decimal (row.now.stripe.value ∷ row.now.fragment.value ∷ row.now.holder.value ∷ [])))) }
{
    let numbers = [
        u32::from(row.stripe.value),
        u32::from(row.fragment.value),
        u32::from(row.holder.value),
    ];
    out.extend_from_slice(b"lease")?;
    push_words(out, numbers.as_slice())
}

/// Returns the words of a node's row after its number, with a space before each, and the end of the
/// line.
fn standing_words(mode: Mode, is_down: bool) -> &'static [u8]
    ensures { result.now ≡ spaced (standing_words mode is_down) ++ codes "\n" }
{
    match (mode, is_down) {
        (Mode::Active, false) => b"\n",
        (Mode::Active, true) => b" down\n",
        (Mode::Draining, false) => b" draining\n",
        (Mode::Draining, true) => b" draining down\n",
        (Mode::Gone, false) => b" gone\n",
        (Mode::Gone, true) => b" gone down\n",
    }
}

/// Returns the word before a stripe of the code, and the space after it.
pub(crate) fn code_word(code: Code) -> &'static [u8]
    ensures { result.now ≡ code_word code ++ codes " " }
{
    match code {
        Code::Wide => b"stripe ",
        Code::Narrow => b"stripe6 ",
    }
}

/// Adds the lines of rows to a text.
pub(crate) fn push_rows<R: Row>(out: &mut Vec<u8>, rows: &[R]) -> Result<(), AllocError>
    ensures { OnOk result (out.new.items ≡ out.old.items ++ lines_text (map R.line rows.now)) }
{
    for row in rows {
        row.push_to(out)?;
    }
    Ok(())
}
