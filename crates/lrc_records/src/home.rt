ghost use Rattle.std.specs.Prelude.{◌≡◌};
ghost use Rattle.lrc_records.specs.Shown.{encoded_home, encoded_homes};

use crate::LrcSeat;
use lrc_rules::Seat;

/// The home of a fragment: `is_there` is 1 and the seat is the home, or all is 0 and there is no home.
#[repr(C)]
#[derive(Clone, Copy)]
pub struct LrcHome {
    pub seat: LrcSeat,
    pub is_there: u8,
    pub reserved: [u8; 3],
}

/// The homes of fragments 0 to 15; a narrow stripe has none from 10 on.
#[repr(C)]
#[derive(Clone, Copy)]
pub struct LrcHomes {
    pub homes: [LrcHome; 16],
}

impl LrcHome {
    const NONE: LrcHome = LrcHome {
        seat: LrcSeat::NONE,
        is_there: 0,
        reserved: [0; 3],
    };

    /// The record of a home, if there is one.
    pub fn of(home: Option<Seat>) -> LrcHome
        ensures { result ≡ encoded_home home }
    {
        match home {
            Some(seat) => LrcHome {
                seat: LrcSeat::of(seat),
                is_there: 1,
                reserved: [0; 3],
            },
            None => LrcHome::NONE,
        }
    }
}

impl LrcHomes {
    /// The record of a stripe's homes, by fragment.
    pub fn of(homes: &[Option<Seat>; 16]) -> LrcHomes
        ensures { result ≡ encoded_homes homes.now }
    {
        let mut encoded = [LrcHome::NONE; 16];
        for (i, home) in homes.iter().enumerate() {
            encoded[i] = LrcHome::of(*home);
        }
        LrcHomes { homes: encoded }
    }
}
