//! What is read of each stripe of a book before it is counted.

ghost use Rattle.std.specs.Prelude.{◌≡◌, true, map, IfOk, IfErr};
ghost use Rattle.lrc_code.specs.declared.fault.Fault.TheVariants as fault;
ghost use Rattle.lrc_code.specs.Losses.{size_of, bits_set};
ghost use Rattle.lrc_rules.specs.States.{has_stripe};
ghost use Rattle.lrc_book.specs.Books.{state_of};
ghost use Rattle.lrc_book.specs.Looks.{stripes_of};
ghost use Rattle.lrc_show.specs.Facts.{stripe_facts};

use lrc_book::{Book, Level, homeless_of};
use lrc_code::{Class, Code, Fault, LossMask, StripeNo};
use std::alloc::Global;

/// What is read of a stripe.
#[derive(Clone, Copy)]
pub(crate) struct StripeFacts {
    pub(crate) level: Level,
    /// The number of missing fragments.
    pub(crate) missing: u8,
    /// The number of fragments without a home.
    pub(crate) homeless: u8,
}

/// What is read of each stripe of a book, in rising order.
pub(crate) fn facts_of_stripes(alloc: Global, book: &Book) -> Result<Vec<StripeFacts>, Fault>
    ensures value { IfOk result (λ rows. rows.items ≡ map (stripe_facts book.now.nodes (state_of book.now)) (stripes_of (state_of book.now))) }
    ensures err { IfErr result (λ e. e ≡ fault.OutOfMemory) }
{
    let stripes = book.stripes(alloc)?;
    let mut rows = Vec::new(alloc);
    for stripe in stripes.as_slice() {
        rows.push(facts_of(book, *stripe))?;
    }
    Ok(rows)
}

/// What is read of a stripe that is there.
fn facts_of(book: &Book, stripe: StripeNo) -> StripeFacts
    requires { has_stripe (state_of book.now) stripe ≡ true }
    ensures { result ≡ stripe_facts book.now.nodes (state_of book.now) stripe }
{
    let code = book.code(stripe).unwrap();
    let homes = book.homes(stripe).unwrap();
    StripeFacts {
        level: book.level(stripe).unwrap(),
        missing: size_in(code, book.missing(stripe).unwrap()),
        homeless: size_in(code, homeless_of(code, &homes)),
    }
}

/// The number of fragments of a code that are in a set.
fn size_in(code: Code, set: LossMask) -> u8
    ensures { result ≡ size_of code (bits_set set.bits) }
{
    set.class_losses_in(code, Class::A)
        + set.class_losses_in(code, Class::B)
        + set.class_losses_in(code, Class::G)
}
