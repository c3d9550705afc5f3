//! Why not all is well.

ghost use Rattle.std.specs.Prelude.{◌≡◌, ◌≤◌, ◌∷◌, ◌++◌, if◌then◌else◌, [], codes, decimal, map, filter, length, option_to_list, string_bytes, IfOk, OnOk, IfErr, true};
ghost use Rattle.std.specs.List.{list_any};
ghost use Rattle.lrc_code.specs.declared.fault.Fault.TheVariants as fault;
ghost use Rattle.lrc_rules.specs.States.{has_stripe, level};
ghost use Rattle.lrc_book.specs.Books.{state_of};
ghost use Rattle.lrc_book.specs.Looks.{is_granted_now};
ghost use Rattle.lrc_terms.specs.Modes.{is_active};
ghost use Rattle.lrc_text.specs.Tables.{table_line};
ghost use Rattle.lrc_show.specs.Summed.{is_level, shown_number};
ghost use Rattle.lrc_show.specs.Reasons.{reason_row, fragment_words, stripes_at, needing_of, needing, finds_no_node, ending_fragments, loses_stripe, fragile_domains, slots_row, level_reasons, repair_reasons, room_reasons, health_table, is_grave, is_in_danger};
ghost use Rattle.lrc_show.specs.Facts.{node_facts, is_newly_lost};

use crate::domains::{DomainKind, all_domains, shown_number};
use crate::leases::leases_of;
use crate::nodes::{NodeFacts, facts_of_nodes};
use crate::status::{sum_loads, sum_slots};
use crate::stripe_facts::{StripeFacts, facts_of_stripes};
use crate::work::is_beyond_repair;
use lrc_book::{Book, Level};
use lrc_code::{Fault, Fragment, StripeNo};
use lrc_forecast::{Outage, Outlook, forecast};
use lrc_groups::{Named, numbers_in};
use std::alloc::{AllocError, Global};

/// Adds a row for each reason why not all is well, or the row that says that there is none.
pub(crate) fn push_health(out: &mut String, alloc: Global, book: &Book) -> Result<(), Fault>
    ensures text { OnOk result (string_bytes out.new ≡ string_bytes out.old ++ health_table book.now.nodes (state_of book.now)) }
    ensures err { IfErr result (λ e. e ≡ fault.OutOfMemory) }
{
    let mut reasons = String::new(alloc);
    push_level_reasons(&mut reasons, alloc, book)?;
    push_repair_reasons(&mut reasons, alloc, book)?;
    push_room_reasons(&mut reasons, alloc, book)?;
    out.push_str("reason,count,first\n")?;
    if reasons.is_empty() {
        out.push_str("ok,0,\n")?;
    } else {
        out.push_str(reasons.as_str())?;
    }
    Ok(())
}

/// Whether a stripe is lost or unavailable, or would be after one more loss of a fragment.
pub(crate) fn is_in_danger(alloc: Global, book: &Book) -> Result<bool, Fault>
    ensures value { IfOk result (λ danger. danger ≡ is_in_danger book.now.nodes (state_of book.now)) }
    ensures err { IfErr result (λ e. e ≡ fault.OutOfMemory) }
{
    let stripes = facts_of_stripes(alloc, book)?;
    Ok(is_any_grave(stripes.as_slice()))
}

/// Whether a stripe is lost or unavailable, or would be after one more loss of a fragment.
fn is_any_grave(stripes: &[StripeFacts]) -> bool
    ensures { result ≡ list_any (λ s. is_grave s.level) stripes.now }
{
    stripes.iter().any(|stripe| is_grave(stripe.level))
}

/// Whether a stripe of this level is lost or unavailable, or would be after one more loss of a fragment.
fn is_grave(level: Level) -> bool
    ensures { result ≡ is_grave level }
{
    match level {
        Level::Whole => false,
        Level::AtRisk(margin) => margin == 0,
        Level::Unavailable | Level::Lost => true,
    }
}

// ---- levels

/// Adds the rows on levels.
fn push_level_reasons(out: &mut String, alloc: Global, book: &Book) -> Result<(), Fault>
    ensures text { OnOk result (string_bytes out.new ≡ string_bytes out.old ++ level_reasons book.now.nodes (state_of book.now)) }
    ensures err { IfErr result (λ e. e ≡ fault.OutOfMemory) }
{
    push_level(out, alloc, book, "lost", Level::Lost)?;
    push_level(out, alloc, book, "unavailable", Level::Unavailable)?;
    push_level(out, alloc, book, "margin_0", Level::AtRisk(0))?;
    push_level(out, alloc, book, "margin_1", Level::AtRisk(1))?;
    push_level(out, alloc, book, "margin_2", Level::AtRisk(2))?;
    Ok(())
}

/// Adds the row on the stripes of this level.
fn push_level(
    out: &mut String,
    alloc: Global,
    book: &Book,
    name: &str,
    level: Level,
) -> Result<(), Fault>
    ensures text { OnOk result (string_bytes out.new ≡ string_bytes out.old
        ++ reason_row name.now (λ s. decimal s.value) (stripes_at book.now.nodes (state_of book.now) level)) }
    ensures err { IfErr result (λ e. e ≡ fault.OutOfMemory) }
{
    let stripes = stripes_at(alloc, book, level)?;
    if !stripes.is_empty() {
        push_reason(out, name, stripes.len(), stripes[0].value)?;
    }
    Ok(())
}

/// The stripes of this level, in rising order.
fn stripes_at(alloc: Global, book: &Book, level: Level) -> Result<Vec<StripeNo>, Fault>
    ensures value { IfOk result (λ rows. rows.items ≡ stripes_at book.now.nodes (state_of book.now) level) }
    ensures err { IfErr result (λ e. e ≡ fault.OutOfMemory) }
{
    let stripes = book.stripes(alloc)?;
    let mut rows = Vec::new(alloc);
    for stripe in stripes.as_slice() {
        if is_at(book, *stripe, level) {
            rows.push(*stripe)?;
        }
    }
    Ok(rows)
}

/// Whether a stripe that is there has this level.
fn is_at(book: &Book, stripe: StripeNo, wanted: Level) -> bool
    requires { has_stripe (state_of book.now) stripe ≡ true }
    ensures { result ≡ is_level wanted (level book.now.nodes (state_of book.now) stripe) }
{
    is_same(wanted, book.level(stripe).unwrap())
}

fn is_same(level: Level, other: Level) -> bool
    ensures { result ≡ is_level level other }
{
    level == other
}

// ---- repair

/// Adds the rows on repair.
fn push_repair_reasons(out: &mut String, alloc: Global, book: &Book) -> Result<(), Fault>
    ensures text { OnOk result (string_bytes out.new ≡ string_bytes out.old ++ repair_reasons book.now.nodes (state_of book.now)) }
    ensures err { IfErr result (λ e. e ≡ fault.OutOfMemory) }
{
    let needing = needing(alloc, book)?;
    let stuck = without_node(alloc, book, needing.as_slice())?;
    let waiting = waiting(alloc, book, needing.as_slice())?;
    let ending = ending(alloc, book)?;
    push_fragments_reason(out, "no_node", stuck.as_slice())?;
    push_fragments_reason(out, "waiting", waiting.as_slice())?;
    push_fragments_reason(out, "ending", ending.as_slice())?;
    Ok(())
}

/// Adds the row for a reason that is there for these fragments, if there are any.
fn push_fragments_reason(
    out: &mut String,
    name: &str,
    fragments: &[(StripeNo, Fragment)],
) -> Result<(), AllocError>
    ensures { OnOk result (string_bytes out.new ≡ string_bytes out.old ++ reason_row name.now fragment_words fragments.now) }
{
    if fragments.is_empty() {
        return Ok(());
    }
    let count = fragments.len();
    let (stripe, fragment) = fragments[0];
    let stripe_number = stripe.value;
    let fragment_number = fragment.value;
    write!(out, "{name},{count},{stripe_number} {fragment_number}\n")
}

/// The fragments that need a lease, in the order of repair.
fn needing(alloc: Global, book: &Book) -> Result<Vec<(StripeNo, Fragment)>, Fault>
    ensures value { IfOk result (λ rows. rows.items ≡ needing book.now.nodes (state_of book.now)) }
    ensures err { IfErr result (λ e. e ≡ fault.OutOfMemory) }
{
    let stripes = book.work(alloc)?;
    let mut rows = Vec::new(alloc);
    for stripe in stripes.as_slice() {
        gather_needing(&mut rows, book, *stripe)?;
    }
    Ok(rows)
}

/// Adds the fragments of a stripe that need a lease, if there is such a stripe.
fn gather_needing(
    rows: &mut Vec<(StripeNo, Fragment)>,
    book: &Book,
    stripe: StripeNo,
) -> Result<(), Fault>
    ensures value { OnOk result (rows.new.items ≡ rows.old.items
        ++ (if has_stripe (state_of book.now) stripe then needing_of book.now.nodes (state_of book.now) stripe else [])) }
    ensures err { IfErr result (λ e. e ≡ fault.OutOfMemory) }
{
    for fragment in Fragment::all() {
        if book.kind(stripe, fragment).is_some() {
            rows.push((stripe, fragment))?;
        }
    }
    Ok(())
}

/// Those of these fragments that could be leased but for want of a node.
fn without_node(
    alloc: Global,
    book: &Book,
    fragments: &[(StripeNo, Fragment)],
) -> Result<Vec<(StripeNo, Fragment)>, AllocError>
    ensures { IfOk result (λ rows. rows.items ≡ filter (finds_no_node book.now.nodes (state_of book.now)) fragments.now) }
{
    let mut rows = Vec::new(alloc);
    for pair in fragments {
        if finds_no_node(book, pair.0, pair.1) {
            rows.push(*pair)?;
        }
    }
    Ok(rows)
}

/// Whether a fragment needs a lease, has none and can be rebuilt, but no node is lawful for it.
fn finds_no_node(book: &Book, stripe: StripeNo, fragment: Fragment) -> bool
    ensures { result ≡ finds_no_node book.now.nodes (state_of book.now) (stripe, fragment) }
{
    let Some(kind) = book.kind(stripe, fragment) else {
        return false;
    };
    book.lease(stripe, fragment).is_none()
        && !book.is_grantable(stripe, fragment)
        && !is_beyond_repair(book, stripe, fragment, &kind)
}

/// Those of these fragments of which a lease would be granted.
fn waiting(
    alloc: Global,
    book: &Book,
    fragments: &[(StripeNo, Fragment)],
) -> Result<Vec<(StripeNo, Fragment)>, AllocError>
    ensures { IfOk result (λ rows. rows.items ≡ filter (λ p. is_granted_now book.now.nodes (state_of book.now) p.0 p.1) fragments.now) }
{
    let mut rows = Vec::new(alloc);
    for pair in fragments {
        if book.is_grantable(pair.0, pair.1) {
            rows.push(*pair)?;
        }
    }
    Ok(rows)
}

/// The fragments whose leases end at the next tick, in rising order.
fn ending(alloc: Global, book: &Book) -> Result<Vec<(StripeNo, Fragment)>, Fault>
    ensures value { IfOk result (λ rows. rows.items ≡ ending_fragments (state_of book.now)) }
    ensures err { IfErr result (λ e. e ≡ fault.OutOfMemory) }
{
    let leases = leases_of(alloc, book)?;
    let next = u64::from(book.clock()) + 1;
    let mut rows = Vec::new(alloc);
    for lease in leases.as_slice() {
        if u64::from(lease.expiry) == next {
            rows.push((lease.stripe, lease.fragment))?;
        }
    }
    Ok(rows)
}

// ---- domains and slots

/// Adds the rows on domains, and on the slots of the active nodes.
fn push_room_reasons(out: &mut String, alloc: Global, book: &Book) -> Result<(), Fault>
    ensures text { OnOk result (string_bytes out.new ≡ string_bytes out.old ++ room_reasons book.now.nodes (state_of book.now)) }
    ensures err { IfErr result (λ e. e ≡ fault.OutOfMemory) }
{
    let fragile = fragile_domains(alloc, book)?;
    let nodes = active_nodes(alloc, book)?;
    push_upgrading(out, book)?;
    push_domains_reason(out, fragile.as_slice())?;
    push_slots(
        out,
        sum_slots(nodes.as_slice()),
        sum_loads(nodes.as_slice()),
    )?;
    Ok(())
}

/// Adds the row on the domain that is upgrading, if there is one.
fn push_upgrading(out: &mut String, book: &Book) -> Result<(), AllocError>
    ensures { OnOk result (string_bytes out.new ≡ string_bytes out.old ++ reason_row (codes "upgrading") (λ u. decimal u.value) (option_to_list (state_of book.now).upgrading)) }
{
    match book.upgrading() {
        Some(domain) => push_reason(out, "upgrading", 1, u16::from(domain.value)),
        None => Ok(()),
    }
}

/// Adds the row on the fault domains whose loss would lose a stripe, if there are any.
fn push_domains_reason(out: &mut String, domains: &[Named]) -> Result<(), AllocError>
    ensures { OnOk result (string_bytes out.new ≡ string_bytes out.old ++ reason_row (codes "fault_domains") (λ d. decimal (shown_number d)) domains.now) }
{
    if domains.is_empty() {
        return Ok(());
    }
    let first = shown_number(domains[0]);
    push_reason(out, "fault_domains", domains.len(), first)?;
    Ok(())
}

/// Adds the row for a reason that is there so often, and first at this number.
fn push_reason(out: &mut String, name: &str, count: usize, first: u16) -> Result<(), AllocError>
    ensures { OnOk result (string_bytes out.new ≡ string_bytes out.old ++ table_line (name.now ∷ decimal count ∷ decimal first ∷ [])) }
{
    write!(out, "{name},{count},{first}\n")
}

/// The fault domains whose loss would lose a stripe that is not lost, in rising order.
fn fragile_domains(alloc: Global, book: &Book) -> Result<Vec<Named>, Fault>
    ensures value { IfOk result (λ rows. rows.items ≡ fragile_domains book.now.nodes (state_of book.now)) }
    ensures err { IfErr result (λ e. e ≡ fault.OutOfMemory) }
{
    let domains = all_domains(alloc, book.topology(), DomainKind::Fault)?;
    let mut rows = Vec::new(alloc);
    for domain in domains.as_slice() {
        if loses_stripe(alloc, book, *domain)? {
            rows.push(*domain)?;
        }
    }
    Ok(rows)
}

/// Whether the loss of a domain would lose a stripe that is not lost.
fn loses_stripe(alloc: Global, book: &Book, domain: Named) -> Result<bool, Fault>
    ensures value { IfOk result (λ lost. lost ≡ loses_stripe book.now.nodes (state_of book.now) domain) }
    ensures err { IfErr result (λ e. e ≡ fault.OutOfMemory) }
{
    let numbers = numbers_in(alloc, book.topology(), &[domain])?;
    let rows = forecast(alloc, book, Outage::Lose, numbers.as_slice())?;
    Ok(is_any_lost(rows.as_slice()))
}

/// Whether a stripe is lost then that is not lost now.
fn is_any_lost(rows: &[Outlook]) -> bool
    ensures { result ≡ list_any is_newly_lost rows.now }
{
    rows.iter().any(|row| row.after == Level::Lost && row.before != Level::Lost)
}

/// The facts of the active nodes, in the order of the file.
fn active_nodes(alloc: Global, book: &Book) -> Result<Vec<NodeFacts>, Fault>
    ensures value { IfOk result (λ rows. rows.items ≡ filter (λ n. is_active n.mode) (map (node_facts (state_of book.now)) book.now.nodes)) }
    ensures few { IfOk result (λ rows. length rows.items ≤ 512) }
    ensures err { IfErr result (λ e. e ≡ fault.OutOfMemory) }
{
    let nodes = facts_of_nodes(alloc, book)?;
    let mut rows = Vec::new(alloc);
    for node in nodes.as_slice() {
        if node.mode.is_active() {
            rows.push(*node)?;
        }
    }
    Ok(rows)
}

/// Adds the row for slots, of which so many are taken, where less than a tenth is free.
fn push_slots(out: &mut String, slots: u64, taken: u64) -> Result<(), AllocError>
    ensures { OnOk result (string_bytes out.new ≡ string_bytes out.old ++ slots_row slots taken) }
{
    let free = slots.saturating_sub(taken);
    if u128::from(free) * 10 < u128::from(slots) {
        write!(out, "slots,{free},\n")
    } else {
        Ok(())
    }
}
