ghost use Rattle.std.specs.Prelude.{◌≡◌, true, List, IfOk, IfErr, length};
ghost use Rattle.std.specs.List.{list_any};
ghost use Rattle.lrc_code.specs.declared.fault.Fault.TheVariants as fault;
ghost use Rattle.lrc_code.specs.declared.numbers.NodeNo.{NodeNo as AnyNode};
ghost use Rattle.lrc_rules.specs.States.{has_stripe};
ghost use Rattle.lrc_rules.specs.Goodness.{AreSeated};
ghost use Rattle.lrc_book.specs.Books.{state_of};
ghost use Rattle.lrc_forecast.specs.Forecasts.{outlook, forecast, is_harmed, harms_none};
ghost use Rattle.lrc_forecast.specs.Hits.{IsSetOf};

use crate::hits::{NodeSet, fragments_on, joined, leases_on, set_of, without};
use crate::seats::has_seat_on_any;
use crate::{Outage, Outlook};
use lrc_book::{Book, homeless_of};
use lrc_code::{Fault, NodeNo, StripeNo};
use lrc_homes::level_by;
use std::alloc::Global;

/// The stripes that would not be whole if this happened to all these nodes at once, in rising order; also those that
/// are not whole now. A node that the store lacks changes nothing, nor does one that is named twice. A node that is down already
/// changes nothing where it stops. One whose domain is upgrading then stays offline when the upgrade has ended. Where a node is
/// lost, its homes are lost too, whether it is online or not.
///
/// # Errors
///
/// Only `Fault::OutOfMemory`.
pub fn forecast(
    alloc: Global,
    book: &Book,
    outage: Outage,
    nodes: &[NodeNo],
) -> Result<Vec<Outlook>, Fault>
    ensures value { IfOk result (λ rows. rows.items ≡ forecast book.now.nodes (state_of book.now) outage nodes.now) }
    ensures err { IfErr result (λ e. e ≡ fault.OutOfMemory) }
{
    book.history(); // so that its contract tells that the seats are in order
    let stripes = book.stripes(alloc)?;
    let hit_nodes = set_of(nodes);
    let mut rows = Vec::new(alloc);
    for stripe in stripes.as_slice() {
        let outlook = outlook_of(book, *stripe, outage, &hit_nodes);
        if !outlook.after.is_whole() {
            rows.push(outlook)?;
        }
    }
    Ok(rows)
}

/// Whether no stripe is harmed.
pub fn is_safe(rows: &[Outlook]) -> bool
    ensures { result ≡ harms_none rows.now }
{
    !is_any_harmed(rows)
}

/// Whether a stripe is harmed.
fn is_any_harmed(rows: &[Outlook]) -> bool
    ensures { result ≡ list_any is_harmed rows.now }
{
    rows.iter().any(|row| row.is_harmed())
}

/// What becomes of a stripe that is there.
fn outlook_of(book: &Book, stripe: StripeNo, outage: Outage, hit_nodes: &NodeSet) -> Outlook
    requires there { has_stripe (state_of book.now) stripe ≡ true }
    requires seated { AreSeated book.now.nodes (state_of book.now) }
    requires long { length hit_nodes.now ≡ 65536 }
    ensures { (ns : List AnyNode) → IsSetOf ns hit_nodes.now
        → result ≡ outlook book.now.nodes (state_of book.now) outage ns stripe }
{
    let code = book.code(stripe).unwrap();
    let homes = book.homes(stripe).unwrap();
    let hit = fragments_on(code, &homes, hit_nodes);
    let missing_now = book.missing(stripe).unwrap();
    let missing = joined(missing_now, hit);
    let homeless = homeless_of(code, &homes);
    let homeless = match outage {
        Outage::Stop => homeless,
        Outage::Lose => joined(homeless, hit),
    };
    let leases_ended = match outage {
        Outage::Stop => 0,
        Outage::Lose => leases_on(book, stripe, &homes, hit_nodes),
    };
    Outlook {
        stripe,
        code,
        before: book.level(stripe).unwrap(),
        after: level_by(code, homeless, missing),
        missing,
        newly_missing: without(missing, missing_now),
        leases_ended,
        has_seat_on_any: has_seat_on_any(book, stripe, &homes, hit_nodes),
    }
}
