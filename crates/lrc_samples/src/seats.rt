//! The seats that the first two stripes of sixteen fragments get on the twenty nodes.

use lrc_code::NodeNo;
use lrc_topology::Seat;

/// The nodes and slots of fragments 0 to 15 of the first stripe.
const FIRST: [(u16, u16); 16] = [
    (0, 0),
    (1, 0),
    (2, 0),
    (3, 0),
    (4, 0),
    (5, 0),
    (6, 0),
    (7, 0),
    (8, 0),
    (9, 0),
    (10, 0),
    (11, 0),
    (16, 0),
    (12, 0),
    (13, 0),
    (14, 0),
];

/// The nodes and slots of fragments 0 to 15 of the second stripe.
const SECOND: [(u16, u16); 16] = [
    (15, 0),
    (17, 0),
    (18, 0),
    (19, 0),
    (0, 1),
    (1, 1),
    (2, 1),
    (3, 1),
    (4, 1),
    (5, 1),
    (6, 1),
    (7, 1),
    (12, 1),
    (8, 1),
    (9, 1),
    (10, 1),
];

/// Returns the seats of fragments 0 to 15 of the first stripe.
pub fn first_seats() -> [Seat; 16] {
    FIRST.map(seat)
}

/// Returns the seats of fragments 0 to 15 of the second stripe.
pub fn second_seats() -> [Seat; 16] {
    SECOND.map(seat)
}

fn seat((number, slot): (u16, u16)) -> Seat {
    Seat {
        node: NodeNo { value: number },
        slot,
    }
}
