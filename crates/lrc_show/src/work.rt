//! The table of fragments that need a lease.

ghost use Rattle.std.specs.Prelude.{◌≡◌, ◌++◌, if◌then◌else◌, [], codes, decimal, flat_map, true, Some, string_bytes, OnOk, IfErr};
ghost use Rattle.lrc_code.specs.Codes.{data_count};
ghost use Rattle.lrc_code.specs.declared.fault.Fault.TheVariants as fault;
ghost use Rattle.lrc_rules.specs.States.{has_stripe, code_of, lease_of};
ghost use Rattle.lrc_rules.specs.Repairs.{is_global, is_safe, is_beyond_repair};
ghost use Rattle.lrc_book.specs.Books.{state_of};
ghost use Rattle.lrc_book.specs.Looks.{kind_shown};
ghost use Rattle.lrc_show.specs.Listed.{kind_word, lease_sources, reads, reads_field, unleased_word, standing_fields, work_row, work_rows, work_table};

use crate::words::push_fragments;
use lrc_book::{Book, Kind};
use lrc_code::{Fault, Fragment, StripeNo};
use lrc_field::data_count;
use std::alloc::{AllocError, Global};

/// Adds the table of fragments that need a lease.
pub(crate) fn push_work(out: &mut String, alloc: Global, book: &Book) -> Result<(), Fault>
    ensures text { OnOk result (string_bytes out.new ≡ string_bytes out.old ++ work_table book.now.nodes (state_of book.now)) }
    ensures err { IfErr result (λ e. e ≡ fault.OutOfMemory) }
{
    let stripes = book.work(alloc)?;
    out.push_str("stripe,fragment,kind,sources,reads,standing,holder,epoch\n")?;
    for stripe in stripes.as_slice() {
        push_stripe_work(out, book, *stripe)?;
    }
    Ok(())
}

/// Adds the rows of a stripe, if there is one.
fn push_stripe_work(out: &mut String, book: &Book, stripe: StripeNo) -> Result<(), AllocError>
    ensures { OnOk result (string_bytes out.new ≡ string_bytes out.old ++ (if has_stripe (state_of book.now) stripe then work_rows book.now.nodes (state_of book.now) stripe else [])) }
{
    for fragment in Fragment::all() {
        if let Some(kind) = book.kind(stripe, fragment) {
            push_fragment_work(out, book, stripe, fragment, &kind)?;
        }
    }
    Ok(())
}

/// Adds the row of a fragment that needs a lease.
fn push_fragment_work(
    out: &mut String,
    book: &Book,
    stripe: StripeNo,
    fragment: Fragment,
    kind: &Kind,
) -> Result<(), AllocError>
    requires { kind_shown book.now.nodes (state_of book.now) stripe fragment ≡ Some kind.now }
    ensures { OnOk result (string_bytes out.new ≡ string_bytes out.old ++ work_row book.now.nodes (state_of book.now) stripe fragment) }
{
    push_head(out, stripe, fragment, kind)?;
    push_fragments(out, lease_sources(kind))?;
    push_reads(out, reads_of(book, stripe, kind))?;
    push_standing(out, book, stripe, fragment, kind)?;
    out.push_str("\n")?;
    Ok(())
}

/// Adds the first three fields of a row, with a comma behind each.
fn push_head(
    out: &mut String,
    stripe: StripeNo,
    fragment: Fragment,
    kind: &Kind,
) -> Result<(), AllocError>
    ensures { OnOk result (string_bytes out.new ≡ string_bytes out.old ++ (decimal stripe.value ++ codes "," ++ decimal fragment.value ++ codes "," ++ kind_word kind.now ++ codes ",")) }
{
    let stripe_number = stripe.value;
    let fragment_number = fragment.value;
    let word = kind_word(kind);
    write!(out, "{stripe_number},{fragment_number},{word},")
}

/// Adds the field that tells how many fragments are read, with a comma before it.
fn push_reads(out: &mut String, reads: Option<usize>) -> Result<(), AllocError>
    ensures { OnOk result (string_bytes out.new ≡ string_bytes out.old ++ (codes "," ++ reads_field reads)) }
{
    match reads {
        Some(count) => write!(out, ",{count}"),
        None => out.push_str(","),
    }
}

/// Adds the fields that tell where the repair of a fragment stands.
fn push_standing(
    out: &mut String,
    book: &Book,
    stripe: StripeNo,
    fragment: Fragment,
    kind: &Kind,
) -> Result<(), AllocError>
    requires { kind_shown book.now.nodes (state_of book.now) stripe fragment ≡ Some kind.now }
    ensures { OnOk result (string_bytes out.new ≡ string_bytes out.old
        ++ flat_map (λ f. codes "," ++ f) (standing_fields book.now.nodes (state_of book.now) stripe fragment (lease_of (state_of book.now) stripe fragment))) }
{
    match book.lease(stripe, fragment) {
        Some(lease) => {
            let holder = lease.holder.value;
            let epoch = lease.epoch;
            write!(out, ",leased,{holder},{epoch}")
        }
        None => {
            let word = unleased_word(book, stripe, fragment, kind);
            write!(out, ",{word},,")
        }
    }
}

/// The word for how a fragment is rebuilt.
fn kind_word(kind: &Kind) -> &'static str
    ensures { result.now ≡ kind_word kind.now }
{
    match kind {
        Kind::Local(_) | Kind::Local3(_) => "local",
        Kind::Global => "global",
        Kind::Move => "move",
    }
}

/// The fragments that a repair from a local group reads.
fn lease_sources(kind: &Kind) -> &[Fragment]
    ensures { result.now ≡ lease_sources kind.now }
{
    match kind {
        Kind::Local(sources) => sources.as_slice(),
        Kind::Local3(sources) => sources.as_slice(),
        Kind::Global | Kind::Move => &[],
    }
}

/// How many fragments are read for a repair of this kind, or none where what is not missing does not determine the fragment.
fn reads_of(book: &Book, stripe: StripeNo, kind: &Kind) -> Option<usize>
    requires { has_stripe (state_of book.now) stripe ≡ true }
    ensures { result ≡ reads (code_of (state_of book.now) stripe) (is_safe book.now.nodes (state_of book.now) stripe) kind.now }
{
    match kind {
        Kind::Local(_) | Kind::Local3(_) => Some(lease_sources(kind).len()),
        Kind::Global if is_recoverable(book, stripe) => Some(data_count_of(book, stripe)),
        Kind::Global => None,
        Kind::Move => Some(1),
    }
}

/// The number of data fragments of a stripe.
fn data_count_of(book: &Book, stripe: StripeNo) -> usize
    requires { has_stripe (state_of book.now) stripe ≡ true }
    ensures { result ≡ data_count (code_of (state_of book.now) stripe) }
{
    usize::from(data_count(book.code(stripe).unwrap()))
}

/// The word for where the repair of a fragment stands that has no lease.
fn unleased_word(book: &Book, stripe: StripeNo, fragment: Fragment, kind: &Kind) -> &'static str
    requires { kind_shown book.now.nodes (state_of book.now) stripe fragment ≡ Some kind.now }
    ensures { result.now ≡ unleased_word book.now.nodes (state_of book.now) stripe fragment }
{
    if book.is_grantable(stripe, fragment) {
        return "open";
    }
    if is_beyond_repair(book, stripe, fragment, kind) {
        return "unrecoverable";
    }
    "no_node"
}

/// Whether a fragment can only be rebuilt from the whole stripe, and too many fragments are missing for that.
pub(crate) fn is_beyond_repair(
    book: &Book,
    stripe: StripeNo,
    fragment: Fragment,
    kind: &Kind,
) -> bool
    requires { kind_shown book.now.nodes (state_of book.now) stripe fragment ≡ Some kind.now }
    ensures { result ≡ is_beyond_repair book.now.nodes (state_of book.now) stripe fragment }
{
    !is_recoverable(book, stripe) && is_global(kind)
}

/// Whether a fragment is rebuilt from the whole stripe.
fn is_global(kind: &Kind) -> bool
    ensures { result ≡ is_global kind.now }
{
    match kind {
        Kind::Global => true,
        Kind::Local(_) | Kind::Local3(_) | Kind::Move => false,
    }
}

/// Whether the missing fragments of a stripe are recoverable.
fn is_recoverable(book: &Book, stripe: StripeNo) -> bool
    requires { has_stripe (state_of book.now) stripe ≡ true }
    ensures { result ≡ is_safe book.now.nodes (state_of book.now) stripe }
{
    let code = book.code(stripe).unwrap();
    let missing = book.missing(stripe).unwrap();
    missing.recoverable_in(code)
}
