//! A stripe that is placed, one fragment after the other.

ghost use Rattle.std.specs.Prelude.{◌≡◌, None, IfOk};
ghost use Rattle.lrc_capacity.specs.Trials.{with_room, chosen_room, trial};

use crate::choice::{choose, take_seat};
use crate::room::{NodeRoom, Placed};
use lrc_code::{Code, Fragment};
use std::alloc::AllocError;

/// Counts the seats that the rule chooses for a new stripe of the code, and returns the first fragment that finds none,
/// if there is one. `beside` gets the nodes of those before it.
pub(crate) fn place(
    rooms: &mut [NodeRoom],
    beside: &mut Vec<Placed>,
    code: Code,
) -> Result<Option<Fragment>, AllocError>
    ensures { IfOk result (λ r. record { rooms = rooms.new; beside = beside.new.items; refused = r }
        ≡ trial code rooms.old) }
{
    beside.clear();
    let mut refused = None;
    let all = Fragment::all();
    for fragment in &all[..code.fragments() as usize] {
        if refused.is_none() {
            refused = place_one(rooms, beside, code, *fragment)?;
        }
    }
    Ok(refused)
}

/// Counts the seat that the rule chooses for a fragment beside those that are placed, or returns the fragment.
fn place_one(
    rooms: &mut [NodeRoom],
    beside: &mut Vec<Placed>,
    code: Code,
    fragment: Fragment,
) -> Result<Option<Fragment>, AllocError>
    ensures { IfOk result (λ r. record { rooms = rooms.new; beside = beside.new.items; refused = r }
        ≡ with_room (record { rooms = rooms.old; beside = beside.old.items; refused = None }) fragment
        (chosen_room code fragment beside.old.items rooms.old)) }
{
    let Some(room) = choose(rooms, beside.as_slice(), code, fragment) else {
        return Ok(Some(fragment));
    };
    take_seat(rooms, room.node.number);
    beside.push(Placed {
        fragment,
        node: room.node,
    })?;
    Ok(None)
}
