//! The table of fragments.

ghost use Rattle.std.specs.Prelude.{◌≡◌, ◌++◌, codes, decimal, flat_map, true, string_bytes, OnOk, IfErr};
ghost use Rattle.lrc_code.specs.declared.fault.Fault.TheVariants as fault;
ghost use Rattle.lrc_rules.specs.States.{has_stripe, lease_of};
ghost use Rattle.lrc_topology.specs.Nodes.{node_at};
ghost use Rattle.lrc_book.specs.Books.{state_of};
ghost use Rattle.lrc_show.specs.Listed.{presence_word, why_words, node_fields, whereabouts, lease_fields, fragment_line, fragment_rows, fragments_table};
ghost use Rattle.lrc_show.specs.Facts.{facts_fields};

use crate::nodes::{NodeFacts, facts_of};
use lrc_book::{Book, Lease, Seat};
use lrc_code::{Fault, Fragment, StripeNo};
use lrc_text::mode_word;
use std::alloc::{AllocError, Global};

/// The heads of the columns.
const HEADS: &str =
    "stripe,fragment,node,slot,fault,upgrade,state,mode,why,target,holder,epoch,expiry\n";

/// Adds the table of fragments.
pub(crate) fn push_fragment_table(out: &mut String, alloc: Global, book: &Book) -> Result<(), Fault>
    ensures text { OnOk result (string_bytes out.new ≡ string_bytes out.old ++ fragments_table book.now.nodes (state_of book.now)) }
    ensures err { IfErr result (λ e. e ≡ fault.OutOfMemory) }
{
    let stripes = book.stripes(alloc)?;
    out.push_str(HEADS)?;
    for stripe in stripes.as_slice() {
        push_stripe_fragments(out, book, *stripe)?;
    }
    Ok(())
}

/// Adds the rows of a stripe that is there.
fn push_stripe_fragments(out: &mut String, book: &Book, stripe: StripeNo) -> Result<(), AllocError>
    requires { has_stripe (state_of book.now) stripe ≡ true }
    ensures { OnOk result (string_bytes out.new ≡ string_bytes out.old ++ fragment_rows book.now.nodes (state_of book.now) stripe) }
{
    let code = book.code(stripe).unwrap();
    let homes = book.homes(stripe).unwrap();
    for fragment in Fragment::all() {
        if fragment.value < code.fragments() {
            push_fragment(out, book, stripe, fragment, homes[fragment.value as usize])?;
        }
    }
    Ok(())
}

/// Adds the row of a fragment with this home.
fn push_fragment(
    out: &mut String,
    book: &Book,
    stripe: StripeNo,
    fragment: Fragment,
    home: Option<Seat>,
) -> Result<(), AllocError>
    ensures { OnOk result (string_bytes out.new ≡ string_bytes out.old
        ++ fragment_line book.now.nodes (state_of book.now) stripe fragment home (lease_of (state_of book.now) stripe fragment)) }
{
    push_name(out, stripe, fragment)?;
    push_whereabouts(out, book, home)?;
    push_terms(out, book.lease(stripe, fragment))?;
    out.push_str("\n")?;
    Ok(())
}

/// Adds the first two fields of a row.
fn push_name(out: &mut String, stripe: StripeNo, fragment: Fragment) -> Result<(), AllocError>
    ensures { OnOk result (string_bytes out.new ≡ string_bytes out.old ++ (decimal stripe.value ++ codes "," ++ decimal fragment.value)) }
{
    let stripe_number = stripe.value;
    let fragment_number = fragment.value;
    write!(out, "{stripe_number},{fragment_number}")
}

/// Adds the fields of a fragment with this home, or without one, with a comma before each.
fn push_whereabouts(out: &mut String, book: &Book, home: Option<Seat>) -> Result<(), AllocError>
    ensures { OnOk result (string_bytes out.new ≡ string_bytes out.old ++ flat_map (λ f. codes "," ++ f) (whereabouts book.now.nodes (state_of book.now) home)) }
{
    match home {
        Some(seat) => push_seat(out, book, seat),
        None => out.push_str(",,,,,homeless,,"),
    }
}

/// Adds a seat as two fields, and those of its node, with a comma before each.
fn push_seat(out: &mut String, book: &Book, seat: Seat) -> Result<(), AllocError>
    ensures { OnOk result (string_bytes out.new ≡ string_bytes out.old
        ++ (codes "," ++ decimal seat.node.value ++ codes "," ++ decimal seat.slot
        ++ flat_map (λ f. codes "," ++ f) (node_fields (state_of book.now) (node_at book.now.nodes seat.node)))) }
{
    let number = seat.node.value;
    let slot = seat.slot;
    write!(out, ",{number},{slot}")?;
    match book.topology().node(seat.node) {
        Some(node) => push_node_fields(out, &facts_of(book, &node)),
        None => out.push_str(",,,offline,,"),
    }
}

/// Adds the fields of a fragment with its home on this node, with a comma before each.
fn push_node_fields(out: &mut String, facts: &NodeFacts) -> Result<(), AllocError>
    ensures { OnOk result (string_bytes out.new ≡ string_bytes out.old ++ flat_map (λ f. codes "," ++ f) (facts_fields facts.now)) }
{
    let fault = facts.node.fault.value;
    let upgrade = facts.node.upgrade.value;
    let presence = presence_word(facts.is_online);
    let mode = mode_word(facts.mode);
    let why = why_words(facts.is_down, facts.is_upgrading);
    write!(out, ",{fault},{upgrade},{presence},{mode},{why}")
}

/// Adds the fields of a live lease, or empty ones, with a comma before each.
fn push_terms(out: &mut String, lease: Option<Lease>) -> Result<(), AllocError>
    ensures { OnOk result (string_bytes out.new ≡ string_bytes out.old ++ flat_map (λ f. codes "," ++ f) (lease_fields lease)) }
{
    match lease {
        Some(lease) => {
            let node = lease.target.node.value;
            let slot = lease.target.slot;
            let holder = lease.holder.value;
            let epoch = lease.epoch;
            let expiry = lease.expiry;
            write!(out, ",{node}:{slot},{holder},{epoch},{expiry}")
        }
        None => out.push_str(",,,,"),
    }
}

/// Whether a fragment is present, by whether the node of its home is online.
fn presence_word(is_online: bool) -> &'static str
    ensures { result.now ≡ presence_word is_online }
{
    if is_online { "present" } else { "offline" }
}

/// Why a node that is not gone is offline.
fn why_words(is_down: bool, is_upgrading: bool) -> &'static str
    ensures { result.now ≡ why_words is_down is_upgrading }
{
    match (is_down, is_upgrading) {
        (true, true) => "down upgrading",
        (true, false) => "down",
        (false, true) => "upgrading",
        (false, false) => "",
    }
}
