//! Why a fragment can't hold a seat.

ghost use Rattle.std.specs.Prelude.{◌≡◌, IsTrue, Some};
ghost use Rattle.lrc_topology.specs.Nodes.{node_at};
ghost use Rattle.lrc_stripes.specs.Tables.{stored_in};
ghost use Rattle.lrc_rules.specs.States.{State};
ghost use Rattle.lrc_images.specs.Causes.{slot_cause, seat_cause};
ghost use Rattle.lrc_store.specs.Stores.{IsOf, IsTied};

use lrc_code::{Fragment, StripeNo};
use lrc_images::Cause;
use lrc_store::Store;
use lrc_topology::{NodeInfo, Seat};

/// Returns why a fragment can't hold a seat; `None` if it can. The stripe must exist.
pub(crate) fn seat_refusal(
    store: &Store,
    stripe: StripeNo,
    fragment: Fragment,
    seat: Seat,
) -> Option<Cause>
    requires tied { IsTied store.now }
    requires there { IsTrue ((stored_in store.now.stripes).stripes stripe) }
    ensures { (st : State) → IsOf st store.now
        → result ≡ seat_cause store.now.topology st (record { stripe = stripe; fragment = fragment; seat = seat }) }
{
    if fragment.value >= store.code_of(stripe).fragments() {
        return Some(Cause::UnknownFragment);
    }
    match store.table.node(seat.node) {
        Some(node) => slot_refusal(store, stripe, fragment, seat, &node),
        None => Some(Cause::UnknownNode),
    }
}

/// Returns why a fragment can't hold a slot of a node, which is the node of the seat.
fn slot_refusal(
    store: &Store,
    stripe: StripeNo,
    fragment: Fragment,
    seat: Seat,
    node: &NodeInfo,
) -> Option<Cause>
    requires tied { IsTied store.now }
    requires there { IsTrue ((stored_in store.now.stripes).stripes stripe) }
    requires node { node_at store.now.topology seat.node ≡ Some node.now }
    ensures { (st : State) → IsOf st store.now
        → result ≡ slot_cause store.now.topology st (record { stripe = stripe; fragment = fragment; seat = seat }) (Some node.now) }
{
    if seat.slot >= node.slots {
        return Some(Cause::UnknownSlot);
    }
    if store.mode(seat.node).is_gone() {
        return Some(Cause::NodeGone);
    }
    if store.table.is_taken(seat.node, seat.slot) {
        return Some(Cause::SeatTaken);
    }
    if store.rules_out(stripe, fragment, node) {
        return Some(Cause::NotLawful);
    }
    None
}
