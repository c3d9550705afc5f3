//! Why a fragment finds no node.

ghost use Rattle.std.specs.Prelude.{◌≡◌, ◌&&◌, not, count_by};
ghost use Rattle.std.specs.List.{list_any};
ghost use Rattle.lrc_code.specs.Numbers.{same_fragment, same_fault};
ghost use Rattle.lrc_capacity.specs.Trials.{can_seat, rules_out, is_beside_in, lacks_slot, lacks_upgrade, shortage_in};

use crate::choice::{can_seat, is_ruled_out};
use crate::room::{NodeRoom, Placed};
use lrc_code::{Code, Fragment};
use lrc_topology::NodeInfo;

/// Why a fragment finds no node: how many nodes each condition rules out. A node counts under the first of its
/// conditions, in this order.
#[derive(Clone, Copy, Debug, PartialEq, Eq)]
pub struct Shortage {
    pub fragment: Fragment,
    /// Gone or draining.
    pub not_active: usize,
    /// Down, or in the domain that upgrades.
    pub offline: usize,
    /// Each slot is held.
    pub full: usize,
    /// In the fault domain of another fragment of the stripe.
    pub fault_domain: usize,
    /// In the upgrade domain of another fragment of the class.
    pub upgrade_domain: usize,
}

/// Why a fragment finds no node, where these other fragments of the stripe are placed.
pub(crate) fn why_short(
    rooms: &[NodeRoom],
    beside: &[Placed],
    code: Code,
    fragment: Fragment,
) -> Shortage
    ensures { result ≡ shortage_in code fragment beside.now rooms.now }
{
    Shortage {
        fragment,
        not_active: count_not_active(rooms),
        offline: count_offline(rooms),
        full: count_full(rooms),
        fault_domain: count_by_fault(rooms, beside, fragment),
        upgrade_domain: count_by_upgrade(rooms, beside, code, fragment),
    }
}

fn count_not_active(rooms: &[NodeRoom]) -> usize
    ensures { result ≡ count_by (λ r. not r.is_active) rooms.now }
{
    rooms.iter().filter(|room| !room.is_active).count()
}

fn count_offline(rooms: &[NodeRoom]) -> usize
    ensures { result ≡ count_by (λ r. r.is_active && not r.is_online) rooms.now }
{
    rooms
        .iter()
        .filter(|room| room.is_active && !room.is_online)
        .count()
}

fn count_full(rooms: &[NodeRoom]) -> usize
    ensures { result ≡ count_by lacks_slot rooms.now }
{
    rooms.iter().filter(|room| lacks_slot(room)).count()
}

fn lacks_slot(room: &NodeRoom) -> bool
    ensures { result ≡ lacks_slot room.now }
{
    room.is_active && room.is_online && !(room.load < u32::from(room.node.slots))
}

fn count_by_fault(rooms: &[NodeRoom], beside: &[Placed], fragment: Fragment) -> usize
    ensures { result ≡ count_by (λ r. can_seat r && list_any (is_beside_in fragment r.node) beside.now) rooms.now }
{
    rooms
        .iter()
        .filter(|room| can_seat(room) && shares_fault(&room.node, beside, fragment))
        .count()
}

/// Whether the node is in the fault domain of another fragment of the stripe.
fn shares_fault(node: &NodeInfo, beside: &[Placed], fragment: Fragment) -> bool
    ensures { result ≡ list_any (is_beside_in fragment node.now) beside.now }
{
    beside.iter().any(|placed| placed.fragment != fragment && node.fault == placed.node.fault)
}

fn count_by_upgrade(rooms: &[NodeRoom], beside: &[Placed], code: Code, fragment: Fragment) -> usize
    ensures { result ≡ count_by (lacks_upgrade code fragment beside.now) rooms.now }
{
    rooms
        .iter()
        .filter(|room| lacks_upgrade(room, beside, code, fragment))
        .count()
}

/// Whether the node is open, and ruled out by its upgrade domain alone.
fn lacks_upgrade(room: &NodeRoom, beside: &[Placed], code: Code, fragment: Fragment) -> bool
    ensures { result ≡ lacks_upgrade code fragment beside.now room.now }
{
    can_seat(room)
        && !shares_fault(&room.node, beside, fragment)
        && is_ruled_out(&room.node, beside, code, fragment)
}
