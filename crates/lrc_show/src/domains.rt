//! The tables of fault and of upgrade domains, with the levels after an outage of each.

ghost use Rattle.std.specs.Prelude.{◌≡◌, ◌≤◌, ◌++◌, codes, decimal, true, None, flat_map, get_or, map, filter, length, count_by, sum_by, string_bytes, IfOk, OnOk, IfErr};
ghost use Rattle.std.specs.List.{list_any};
ghost use Rattle.lrc_code.specs.Codes.{all_fragments};
ghost use Rattle.lrc_code.specs.declared.fault.Fault.TheVariants as fault;
ghost use Rattle.lrc_rules.specs.States.{has_stripe, has_number};
ghost use Rattle.lrc_forecast.specs.Forecasts.{is_on_any, forecast};
ghost use Rattle.lrc_groups.specs.Groups.{has_named, numbers_in};
ghost use Rattle.lrc_book.specs.Books.{state_of};
ghost use Rattle.lrc_book.specs.Looks.{homes_on, stripes_of};
ghost use Rattle.lrc_show.specs.Listed.{all_leases};
ghost use Rattle.lrc_show.specs.Summed.{domain_at, all_domains, outage_for, shown_number, is_among, is_hit, shown_domain, domains_table};
ghost use Rattle.lrc_show.specs.Facts.{node_facts, target_sum, outlook_count, sum_line, risk_fields, outlook_line};

use crate::leases::leases_of;
use crate::nodes::{NodeFacts, count_targets, facts_of_nodes};
use crate::status::{count_online, sum_loads, sum_slots};
use lrc_book::{Book, Lease, Level, Seat};
use lrc_code::{FRAGMENTS, Fault, FaultNo, Fragment, NodeNo, StripeNo, UpgradeNo};
use lrc_forecast::{Outage, Outlook, forecast};
use lrc_groups::{Named, first_lacking, numbers_in};
use lrc_topology::{NodeInfo, Topology};
use std::alloc::{AllocError, Global};

/// The heads of the columns.
const HEADS: &str =
    "domain,nodes,online,homes,targets,load,slots,stripes,whole,at_risk_margin_2,at_risk_margin_1,at_risk_margin_0,unavailable,lost\n";

/// The number of domain numbers of each kind.
const DOMAINS: u16 = 256;

/// A kind of domain.
#[derive(Clone, Copy, Debug, Drop, PartialEq, Eq)]
pub enum DomainKind {
    /// Nodes that can be lost together.
    Fault,
    /// Nodes that are upgraded together.
    Upgrade,
}

/// Adds the table of the domains of a kind.
pub(crate) fn push_domains(
    out: &mut String,
    alloc: Global,
    book: &Book,
    kind: DomainKind,
) -> Result<(), Fault>
    ensures text { OnOk result (string_bytes out.new ≡ string_bytes out.old ++ domains_table book.now.nodes (state_of book.now) kind) }
    ensures err { IfErr result (λ e. e ≡ fault.OutOfMemory) }
{
    let leases = leases_of(alloc, book)?;
    let nodes = facts_of_nodes(alloc, book)?;
    let domains = all_domains(alloc, book.topology(), kind)?;
    let outage = outage_for(kind);
    out.push_str(HEADS)?;
    for domain in domains.as_slice() {
        push_domain(
            out,
            alloc,
            book,
            leases.as_slice(),
            nodes.as_slice(),
            outage,
            *domain,
        )?;
    }
    Ok(())
}

/// The domains of a kind that have a node, in rising order.
pub(crate) fn all_domains(
    alloc: Global,
    topology: &Topology,
    kind: DomainKind,
) -> Result<Vec<Named>, AllocError>
    ensures { IfOk result (λ domains. domains.items ≡ all_domains topology.now kind) }
{
    let mut domains = Vec::new(alloc);
    for number in 0..DOMAINS {
        let domain = domain_at(kind, number as u8);
        if has_node(topology, domain) {
            domains.push(domain)?;
        }
    }
    Ok(domains)
}

/// The domain of this kind and number.
fn domain_at(kind: DomainKind, number: u8) -> Named
    ensures { result ≡ domain_at kind number }
{
    match kind {
        DomainKind::Fault => Named::Fault(FaultNo { value: number }),
        DomainKind::Upgrade => Named::Upgrade(UpgradeNo { value: number }),
    }
}

/// Whether a node has the number, or is in the domain.
fn has_node(topology: &Topology, named: Named) -> bool
    ensures { result ≡ has_named topology.now named }
{
    first_lacking(topology, &[named]).is_none()
}

/// What the forecast of a domain is of: a fault domain is lost, an upgrade domain stops.
fn outage_for(kind: DomainKind) -> Outage
    ensures { result ≡ outage_for kind }
{
    match kind {
        DomainKind::Fault => Outage::Lose,
        DomainKind::Upgrade => Outage::Stop,
    }
}

/// The number of a domain, or of a node.
pub(crate) fn shown_number(named: Named) -> u16
    ensures { result ≡ shown_number named }
{
    match named {
        Named::Node(node) => node.value,
        Named::Fault(domain) => u16::from(domain.value),
        Named::Upgrade(domain) => u16::from(domain.value),
    }
}

/// Adds the row of a domain, where these are all live leases and the facts of all nodes.
fn push_domain(
    out: &mut String,
    alloc: Global,
    book: &Book,
    leases: &[Lease],
    nodes: &[NodeFacts],
    outage: Outage,
    domain: Named,
) -> Result<(), Fault>
    requires leases { leases.now ≡ all_leases (state_of book.now) }
    requires nodes { nodes.now ≡ map (node_facts (state_of book.now)) book.now.nodes }
    requires few { length nodes.now ≤ 512 }
    ensures text { OnOk result (string_bytes out.new ≡ string_bytes out.old ++ shown_domain book.now.nodes (state_of book.now) outage domain) }
    ensures err { IfErr result (λ e. e ≡ fault.OutOfMemory) }
{
    let members = members_of(alloc, nodes, domain)?;
    let numbers = numbers_in(alloc, book.topology(), &[domain])?;
    let stripes = book.stripes(alloc)?;
    let hit = count_hit(alloc, book, numbers.as_slice())?;
    let rows = forecast(alloc, book, outage, numbers.as_slice())?;
    let number = shown_number(domain);
    write!(out, "{number}")?;
    push_sums(out, alloc, book, leases, members.as_slice())?;
    push_outlooks(out, hit, stripes.len(), rows.as_slice())?;
    out.push_str("\n")?;
    Ok(())
}

/// Those of the nodes that are in a domain.
fn members_of(
    alloc: Global,
    nodes: &[NodeFacts],
    domain: Named,
) -> Result<Vec<NodeFacts>, AllocError>
    ensures { IfOk result (λ rows. rows.items ≡ filter (λ n. is_among domain n.node) nodes.now) }
{
    let mut rows = Vec::new(alloc);
    for node in nodes {
        if is_among(domain, &node.node) {
            rows.push(*node)?;
        }
    }
    Ok(rows)
}

/// Whether the node is the one that is named, or is in the domain.
fn is_among(named: Named, node: &NodeInfo) -> bool
    ensures { result ≡ is_among named node.now }
{
    match named {
        Named::Node(number) => node.number == number,
        Named::Fault(domain) => node.fault == domain,
        Named::Upgrade(domain) => node.upgrade == domain,
    }
}

/// Adds the fields on the nodes of a domain, where these are all live leases, with a comma before each.
fn push_sums(
    out: &mut String,
    alloc: Global,
    book: &Book,
    leases: &[Lease],
    members: &[NodeFacts],
) -> Result<(), Fault>
    requires few { length members.now ≤ 512 }
    ensures text { OnOk result (string_bytes out.new ≡ string_bytes out.old ++ sum_line (state_of book.now) leases.now members.now) }
    ensures err { IfErr result (λ e. e ≡ fault.OutOfMemory) }
{
    let count = members.len();
    let online = count_online(members);
    let homes = sum_homes(alloc, book, members)?;
    let targets = sum_targets(leases, members);
    let load = sum_loads(members);
    let slots = sum_slots(members);
    write!(out, ",{count},{online},{homes},{targets},{load},{slots}")?;
    Ok(())
}

/// The number of homes on all these nodes.
fn sum_homes(alloc: Global, book: &Book, members: &[NodeFacts]) -> Result<u128, Fault>
    requires few { length members.now ≤ 512 }
    ensures value { IfOk result (λ total. total ≡ sum_by (λ n. length (homes_on (state_of book.now) n.node.number)) members.now) }
    ensures err { IfErr result (λ e. e ≡ fault.OutOfMemory) }
{
    // A `u128`, since nothing is known of the length of a list of homes but that it is a length.
    let mut total = 0;
    for member in members {
        total += book.homes_on(alloc, member.node.number)?.len() as u128;
    }
    Ok(total)
}

/// The number of leases with their target on one of these nodes.
fn sum_targets(leases: &[Lease], members: &[NodeFacts]) -> u128
    requires few { length members.now ≤ 512 }
    ensures { result ≡ target_sum leases.now members.now }
{
    let mut total = 0;
    for member in members {
        total += count_targets(leases, member.node.number) as u128;
    }
    total
}

/// How many stripes have a home on one of the nodes.
fn count_hit(alloc: Global, book: &Book, nodes: &[NodeNo]) -> Result<usize, Fault>
    ensures value { IfOk result (λ count. count ≡ count_by (is_hit (state_of book.now) nodes.now) (stripes_of (state_of book.now))) }
    ensures err { IfErr result (λ e. e ≡ fault.OutOfMemory) }
{
    let stripes = book.stripes(alloc)?;
    let mut count = 0;
    for stripe in stripes.as_slice() {
        if is_hit(book, *stripe, nodes) {
            count += 1;
        }
    }
    Ok(count)
}

/// Whether a stripe that is there has a home on one of the nodes.
fn is_hit(book: &Book, stripe: StripeNo, nodes: &[NodeNo]) -> bool
    requires { has_stripe (state_of book.now) stripe ≡ true }
    ensures { result ≡ is_hit (state_of book.now) nodes.now stripe }
{
    let homes = book.homes(stripe).unwrap();
    is_any_on(nodes, &homes)
}

/// Whether one of these homes is on one of the nodes.
fn is_any_on(nodes: &[NodeNo], homes: &[Option<Seat>; FRAGMENTS]) -> bool
    ensures { result ≡ list_any (λ f. is_on_any nodes.now (get_or homes.now f.value None)) all_fragments }
{
    Fragment::all().iter().any(|fragment| is_on_any(nodes, homes[fragment.value as usize]))
}

/// Whether a home is on one of the nodes.
fn is_on_any(nodes: &[NodeNo], home: Option<Seat>) -> bool
    ensures { result ≡ is_on_any nodes.now home }
{
    match home {
        Some(seat) => has_number(nodes, seat.node),
        None => false,
    }
}

/// Whether a node is among these.
fn has_number(nodes: &[NodeNo], node: NodeNo) -> bool
    ensures { result ≡ has_number nodes.now node }
{
    nodes.iter().any(|other| node == *other)
}

/// Adds how many stripes are hit, and how many of all stripes have each level then, with a comma before each.
fn push_outlooks(
    out: &mut String,
    hit: usize,
    stripes: usize,
    rows: &[Outlook],
) -> Result<(), AllocError>
    requires fewer { length rows.now ≤ stripes }
    ensures { OnOk result (string_bytes out.new ≡ string_bytes out.old ++ outlook_line hit stripes rows.now) }
{
    let whole = stripes - rows.len();
    push_pair(out, hit, whole)?;
    push_risks(out, rows)?;
    Ok(())
}

/// Adds two numbers, with a comma before each.
fn push_pair(out: &mut String, first: usize, second: usize) -> Result<(), AllocError>
    ensures { OnOk result (string_bytes out.new ≡ string_bytes out.old ++ (codes "," ++ decimal first ++ codes "," ++ decimal second)) }
{
    write!(out, ",{first},{second}")
}

/// Adds how many of these stripes have each level then, with a comma before each.
fn push_risks(out: &mut String, rows: &[Outlook]) -> Result<(), AllocError>
    ensures { OnOk result (string_bytes out.new ≡ string_bytes out.old ++ flat_map (λ f. codes "," ++ f) (risk_fields rows.now)) }
{
    let margin_2 = count_then(rows, Level::AtRisk(2));
    let margin_1 = count_then(rows, Level::AtRisk(1));
    let margin_0 = count_then(rows, Level::AtRisk(0));
    let unavailable = count_then(rows, Level::Unavailable);
    let lost = count_then(rows, Level::Lost);
    write!(
        out,
        ",{margin_2},{margin_1},{margin_0},{unavailable},{lost}"
    )?;
    Ok(())
}

/// The number of stripes that have this level then.
fn count_then(rows: &[Outlook], level: Level) -> usize
    ensures { result ≡ outlook_count level rows.now }
{
    rows.iter().filter(|row| row.after == level).count()
}
