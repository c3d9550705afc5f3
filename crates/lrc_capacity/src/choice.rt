//! The choice of a node for a fragment.

ghost use Rattle.std.specs.Prelude.{◌≡◌, ◌&&◌, not, true, map};
ghost use Rattle.std.specs.List.{list_any};
ghost use Rattle.std.specs.Option.{option_map_or};
ghost use Rattle.lrc_code.specs.Codes.{share_class};
ghost use Rattle.lrc_code.specs.Numbers.{same_fragment};
ghost use Rattle.lrc_rules.specs.Placement.{clashes};
ghost use Rattle.lrc_capacity.specs.Trials.{is_lighter_room, can_seat, rules_out, may_go, chosen_room, one_more_on};

use crate::room::{NodeRoom, Placed};
use lrc_code::{Code, Fragment, NodeNo};
use lrc_topology::NodeInfo;

/// What is read of the node that the rule chooses for a fragment, where these other fragments of the stripe are placed.
pub(crate) fn choose(
    rooms: &[NodeRoom],
    beside: &[Placed],
    code: Code,
    fragment: Fragment,
) -> Option<NodeRoom>
    ensures { result ≡ chosen_room code fragment beside.now rooms.now }
{
    let mut best = None;
    for room in rooms {
        if is_better(room, best) && may_go(room, beside, code, fragment) {
            best = Some(*room);
        }
    }
    best
}

/// Whether the rule prefers a node to the best so far, if there is one.
fn is_better(room: &NodeRoom, best: Option<NodeRoom>) -> bool
    ensures { result ≡ option_map_or (λ b. is_lighter_room room.now b) best true }
{
    match best {
        Some(other) => is_lighter(room, &other),
        None => true,
    }
}

/// Whether the node has less load, or equal load and a lower number.
fn is_lighter(room: &NodeRoom, other: &NodeRoom) -> bool
    ensures { result ≡ is_lighter_room room.now other.now }
{
    room.load < other.load
        || (room.load == other.load && room.node.number.value < other.node.number.value)
}

/// Whether the fragment may go to the node.
fn may_go(room: &NodeRoom, beside: &[Placed], code: Code, fragment: Fragment) -> bool
    ensures { result ≡ may_go code fragment beside.now room.now }
{
    can_seat(room) && !is_ruled_out(&room.node, beside, code, fragment)
}

/// Whether the node takes seats and has a free slot.
pub(crate) fn can_seat(room: &NodeRoom) -> bool
    ensures { result ≡ can_seat room.now }
{
    room.is_active && room.is_online && room.load < u32::from(room.node.slots)
}

/// Whether another fragment of the stripe rules out the node.
pub(crate) fn is_ruled_out(
    node: &NodeInfo,
    beside: &[Placed],
    code: Code,
    fragment: Fragment,
) -> bool
    ensures { result ≡ list_any (rules_out code fragment node.now) beside.now }
{
    beside
        .iter()
        .any(|placed| rules_out(node, placed, code, fragment))
}

fn rules_out(node: &NodeInfo, placed: &Placed, code: Code, fragment: Fragment) -> bool
    ensures { result ≡ rules_out code fragment node.now placed.now }
{
    placed.fragment != fragment && clashes(node, placed, code, fragment)
}

/// Whether two fragments of a stripe must not be on these nodes.
fn clashes(node: &NodeInfo, placed: &Placed, code: Code, fragment: Fragment) -> bool
    ensures { result ≡ clashes code fragment node.now placed.now.fragment placed.now.node }
{
    node.fault == placed.node.fault
        || (share_class(code, fragment, placed.fragment) && node.upgrade == placed.node.upgrade)
}

fn share_class(code: Code, fragment: Fragment, other: Fragment) -> bool
    ensures { result ≡ share_class code fragment other }
{
    match (fragment.class_in(code), other.class_in(code)) {
        (Some(class), Some(next)) => class == next,
        _ => false,
    }
}

/// Counts one more held seat on a node.
pub(crate) fn take_seat(rooms: &mut [NodeRoom], node: NodeNo)
    ensures { rooms.new ≡ map (one_more_on node) rooms.old }
{
    for room in rooms.iter_mut() {
        *room = seated(*room, node);
    }
}

/// What is read of a node after one more seat is held on this one.
fn seated(room: NodeRoom, node: NodeNo) -> NodeRoom
    ensures { result ≡ one_more_on node room }
{
    if room.node.number == node && room.load < u32::from(room.node.slots) {
        NodeRoom {
            load: room.load + 1,
            ..room
        }
    } else {
        room
    }
}
