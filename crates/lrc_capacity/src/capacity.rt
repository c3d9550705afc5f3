//! How many stripes of a code are placed until the first refusal.

ghost use Rattle.std.specs.Prelude.{◌≡◌, ◌≤◌, List, length, map, sum_by, IfOk};
ghost use Rattle.lrc_code.specs.declared.numbers.StripeNo.{StripeNo};
ghost use Rattle.lrc_topology.specs.declared.NodeInfo.{NodeInfo};
ghost use Rattle.lrc_topology.specs.Nodes.{AreNodes};
ghost use Rattle.lrc_rules.specs.States.{State};
ghost use Rattle.lrc_rules.specs.Goodness.{AreSeated};
ghost use Rattle.lrc_capacity.specs.Capacities.{room_of, AreUnused, capacity};
ghost use Rattle.lrc_capacity.specs.Trials.{free_on, free_in, filled};

use crate::placing::place;
use crate::room::NodeRoom;
use crate::shortage::{Shortage, why_short};
use lrc_code::Code;
use std::alloc::{AllocError, Global};

/// How many stripes of a code are placed.
#[derive(Clone, Copy, Debug, PartialEq, Eq)]
pub struct Capacity {
    pub stripes: usize,
    /// Why no more are; `None` where no number is left.
    pub shortage: Option<Shortage>,
    /// The slots that stay free on the nodes that are active and online.
    pub free_slots: u64,
}

/// How many stripes of a code the rule places, one after the other, with so many unused numbers. `rooms` is what is
/// read of all nodes; it counts the seats that are held then.
///
/// # Errors
///
/// `AllocError`.
pub fn capacity_of(
    alloc: Global,
    rooms: &mut [NodeRoom],
    code: Code,
    unused: usize,
) -> Result<Capacity, AllocError>
    requires few { length rooms.old ≤ 512 }
    ensures { IfOk result (λ c. (nodes : List NodeInfo) (st : State) (numbers : List StripeNo)
        → AreNodes nodes → AreSeated nodes st → rooms.old ≡ map (room_of st) nodes
        → AreUnused st numbers → length numbers ≡ unused → c ≡ capacity nodes st code numbers) }
{
    fill(alloc, rooms, code, unused)
}

/// The same, without the rules.
fn fill(
    alloc: Global,
    rooms: &mut [NodeRoom],
    code: Code,
    unused: usize,
) -> Result<Capacity, AllocError>
    requires few { length rooms.old ≤ 512 }
    ensures { IfOk result (λ c. c ≡ filled code 0 rooms.old unused) }
{
    let mut beside = Vec::new(alloc);
    let mut stripes = 0;
    let mut free = free_slots(rooms);
    while stripes < unused {
        if let Some(fragment) = place(rooms, &mut beside, code)? {
            return Ok(Capacity {
                stripes,
                shortage: Some(why_short(rooms, beside.as_slice(), code, fragment)),
                free_slots: free,
            });
        }
        stripes += 1;
        free = free_slots(rooms);
    }
    Ok(Capacity {
        stripes,
        shortage: None,
        free_slots: free,
    })
}

/// The number of free slots of the nodes that take seats.
fn free_slots(rooms: &[NodeRoom]) -> u64
    requires few { length rooms.now ≤ 512 }
    ensures { result ≡ free_in rooms.now }
{
    let mut total = 0;
    for room in rooms {
        total += u64::from(free_on(room));
    }
    total
}

fn free_on(room: &NodeRoom) -> u32
    ensures value { result ≡ free_on room.now }
    ensures few { result ≤ 65535 }
{
    if room.is_active && room.is_online {
        u32::from(room.node.slots).saturating_sub(room.load)
    } else {
        0
    }
}
