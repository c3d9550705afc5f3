ghost use Rattle.std.specs.Prelude.{◌≡◌, ◌-◌, ◌≤◌, ◌++◌, length, map, take, replicate};
ghost use Rattle.lrc_records.specs.Replies.{encoded_seat, no_seat};

use lrc_code::NodeNo;
use lrc_rules::Seat;

/// A slot of a node.
#[repr(C)]
#[derive(Clone, Copy, PartialEq, Eq)]
pub struct LrcSeat {
    pub node: u16,
    pub slot: u16,
}

impl LrcSeat {
    pub(crate) const NONE: LrcSeat = LrcSeat { node: 0, slot: 0 };

    pub(crate) fn of(seat: Seat) -> LrcSeat
        ensures { result ≡ encoded_seat seat }
    {
        LrcSeat {
            node: seat.node.value,
            slot: seat.slot,
        }
    }

    /// The seat of which this is the record.
    pub(crate) fn seat(self) -> Seat
        ensures { encoded_seat result ≡ self }
    {
        Seat {
            node: NodeNo { value: self.node },
            slot: self.slot,
        }
    }

    /// The seats of the first fragments.
    pub(crate) fn first<const N: usize>(encoded: &[LrcSeat; 16]) -> [Seat; N]
        requires few { N ≤ 16 }
        ensures { map encoded_seat result ≡ take N encoded.now }
    {
        let mut seats = [LrcSeat::NONE.seat(); N];
        for i in 0..N {
            seats[i] = encoded[i].seat();
        }
        seats
    }

    /// The seats of the fragments from 0 on, and no seat after them.
    pub(crate) fn of_all(seats: &[Seat]) -> [LrcSeat; 16]
        requires few { length seats.now ≤ 16 }
        ensures { result ≡ map encoded_seat seats.now ++ replicate (16 - length seats.now) no_seat }
    {
        let mut encoded = [LrcSeat::NONE; 16];
        for (i, seat) in seats.iter().enumerate() {
            encoded[i] = LrcSeat::of(*seat);
        }
        encoded
    }
}
