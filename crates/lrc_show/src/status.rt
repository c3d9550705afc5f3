//! The summary.

ghost use Rattle.std.specs.Prelude.{◌≡◌, ◌≤◌, ◌+◌, ◌++◌, decimal, length, count_by, sum_by, string_bytes, OnOk, IfErr};
ghost use Rattle.lrc_code.specs.declared.fault.Fault.TheVariants as fault;
ghost use Rattle.lrc_terms.specs.Modes.{is_active, is_draining, is_gone};
ghost use Rattle.lrc_book.specs.Books.{state_of};
ghost use Rattle.lrc_show.specs.Summed.{value_row, time_values, status_table};
ghost use Rattle.lrc_show.specs.Facts.{at_level, level_lines, stripe_lines, seat_lines, node_lines};

use crate::leases::leases_of;
use crate::nodes::{NodeFacts, facts_of_nodes};
use crate::stripe_facts::{StripeFacts, facts_of_stripes};
use lrc_book::{Book, Level};
use lrc_code::Fault;
use std::alloc::{AllocError, Global};

/// Adds the summary.
pub(crate) fn push_status(out: &mut String, alloc: Global, book: &Book) -> Result<(), Fault>
    ensures text { OnOk result (string_bytes out.new ≡ string_bytes out.old ++ status_table book.now.nodes (state_of book.now) (book.now.before + length book.now.history)) }
    ensures err { IfErr result (λ e. e ≡ fault.OutOfMemory) }
{
    let stripes = facts_of_stripes(alloc, book)?;
    let leases = leases_of(alloc, book)?.len() as u64;
    let nodes = facts_of_nodes(alloc, book)?;
    out.push_str("name,value\n")?;
    push_stripe_values(out, stripes.as_slice())?;
    push_seat_values(out, leases, nodes.as_slice())?;
    push_node_values(out, nodes.as_slice())?;
    push_time_values(out, book)?;
    Ok(())
}

// ---- rows

/// Adds the rows on stripes.
fn push_stripe_values(out: &mut String, stripes: &[StripeFacts]) -> Result<(), AllocError>
    requires few { length stripes.now ≤ 4096 }
    ensures { OnOk result (string_bytes out.new ≡ string_bytes out.old ++ stripe_lines stripes.now) }
{
    push_value(out, "stripes", stripes.len() as u64)?;
    push_levels(out, stripes)?;
    push_value(out, "missing_fragments", sum_missing(stripes))?;
    push_value(out, "homeless_fragments", sum_homeless(stripes))?;
    Ok(())
}

/// Adds the number of stripes of each level.
fn push_levels(out: &mut String, stripes: &[StripeFacts]) -> Result<(), AllocError>
    ensures { OnOk result (string_bytes out.new ≡ string_bytes out.old ++ level_lines stripes.now) }
{
    push_level(out, "whole", stripes, Level::Whole)?;
    push_level(out, "at_risk_margin_2", stripes, Level::AtRisk(2))?;
    push_level(out, "at_risk_margin_1", stripes, Level::AtRisk(1))?;
    push_level(out, "at_risk_margin_0", stripes, Level::AtRisk(0))?;
    push_level(out, "unavailable", stripes, Level::Unavailable)?;
    push_level(out, "lost", stripes, Level::Lost)?;
    Ok(())
}

/// Adds the number of stripes that have this level, under a name.
fn push_level(
    out: &mut String,
    name: &str,
    stripes: &[StripeFacts],
    level: Level,
) -> Result<(), AllocError>
    ensures { OnOk result (string_bytes out.new ≡ string_bytes out.old ++ value_row name.now (decimal (at_level level stripes.now))) }
{
    push_value(out, name, count_level(stripes, level))
}

/// Adds the rows on leases, of which there is this number, and on seats.
fn push_seat_values(out: &mut String, leases: u64, nodes: &[NodeFacts]) -> Result<(), AllocError>
    requires few { length nodes.now ≤ 512 }
    ensures { OnOk result (string_bytes out.new ≡ string_bytes out.old ++ seat_lines leases nodes.now) }
{
    push_value(out, "leases", leases)?;
    push_value(out, "held_seats", sum_loads(nodes))?;
    push_value(out, "slots", sum_slots(nodes))?;
    Ok(())
}

/// Adds the rows on nodes.
fn push_node_values(out: &mut String, nodes: &[NodeFacts]) -> Result<(), AllocError>
    ensures { OnOk result (string_bytes out.new ≡ string_bytes out.old ++ node_lines nodes.now) }
{
    push_value(out, "nodes_active", count_active(nodes))?;
    push_value(out, "nodes_draining", count_draining(nodes))?;
    push_value(out, "nodes_gone", count_gone(nodes))?;
    push_value(out, "nodes_down", count_down(nodes))?;
    push_value(out, "nodes_online", count_online(nodes))?;
    Ok(())
}

/// Adds a row of a name and a number.
fn push_value(out: &mut String, name: &str, value: u64) -> Result<(), AllocError>
    ensures { OnOk result (string_bytes out.new ≡ string_bytes out.old ++ value_row name.now (decimal value)) }
{
    write!(out, "{name},{value}\n")
}

/// Adds the upgrading domain, the clock, and the number of entries of the store.
fn push_time_values(out: &mut String, book: &Book) -> Result<(), AllocError>
    ensures { OnOk result (string_bytes out.new ≡ string_bytes out.old ++ time_values (state_of book.now) (book.now.before + length book.now.history)) }
{
    match book.upgrading() {
        Some(domain) => {
            let number = domain.value;
            write!(out, "upgrading,{number}\n")?;
        }
        None => out.push_str("upgrading,none\n")?,
    }
    let clock = book.clock();
    // A `u128`, since a book may begin after any number of entries.
    let entries = u128::from(book.before()) + book.history().len() as u128;
    write!(out, "clock,{clock}\nentries,{entries}\n")
}

// ---- numbers

/// The number of stripes that have this level.
fn count_level(stripes: &[StripeFacts], level: Level) -> u64
    ensures { result ≡ at_level level stripes.now }
{
    stripes
        .iter()
        .filter(|stripe| stripe.level == level)
        .count() as u64
}

/// The number of missing fragments of all stripes.
fn sum_missing(stripes: &[StripeFacts]) -> u64
    requires { length stripes.now ≤ 4096 }
    ensures { result ≡ sum_by (λ s. s.missing) stripes.now }
{
    let mut total = 0;
    for stripe in stripes {
        total += u64::from(stripe.missing);
    }
    total
}

/// The number of fragments without a home of all stripes.
fn sum_homeless(stripes: &[StripeFacts]) -> u64
    requires { length stripes.now ≤ 4096 }
    ensures { result ≡ sum_by (λ s. s.homeless) stripes.now }
{
    let mut total = 0;
    for stripe in stripes {
        total += u64::from(stripe.homeless);
    }
    total
}

/// The number of held seats of all nodes.
pub(crate) fn sum_loads(nodes: &[NodeFacts]) -> u64
    requires { length nodes.now ≤ 512 }
    ensures { result ≡ sum_by (λ n. n.load) nodes.now }
{
    let mut total = 0;
    for node in nodes {
        total += u64::from(node.load);
    }
    total
}

/// The number of slots of all nodes.
pub(crate) fn sum_slots(nodes: &[NodeFacts]) -> u64
    requires { length nodes.now ≤ 512 }
    ensures { result ≡ sum_by (λ n. n.node.slots) nodes.now }
{
    let mut total = 0;
    for node in nodes {
        total += u64::from(node.node.slots);
    }
    total
}

/// The number of active nodes.
fn count_active(nodes: &[NodeFacts]) -> u64
    ensures { result ≡ count_by (λ n. is_active n.mode) nodes.now }
{
    nodes.iter().filter(|node| node.mode.is_active()).count() as u64
}

/// The number of draining nodes.
fn count_draining(nodes: &[NodeFacts]) -> u64
    ensures { result ≡ count_by (λ n. is_draining n.mode) nodes.now }
{
    nodes.iter().filter(|node| node.mode.is_draining()).count() as u64
}

/// The number of nodes that are gone.
fn count_gone(nodes: &[NodeFacts]) -> u64
    ensures { result ≡ count_by (λ n. is_gone n.mode) nodes.now }
{
    nodes.iter().filter(|node| node.mode.is_gone()).count() as u64
}

/// The number of nodes that are down.
fn count_down(nodes: &[NodeFacts]) -> u64
    ensures { result ≡ count_by (λ n. n.is_down) nodes.now }
{
    nodes.iter().filter(|node| node.is_down).count() as u64
}

/// The number of nodes that are online.
pub(crate) fn count_online(nodes: &[NodeFacts]) -> u64
    ensures { result ≡ count_by (λ n. n.is_online) nodes.now }
{
    nodes.iter().filter(|node| node.is_online).count() as u64
}
