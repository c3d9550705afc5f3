ghost use Rattle.std.specs.Prelude.{◌≡◌};
ghost use Rattle.lrc_records.specs.Shown.{encoded_level};

use lrc_rules::Level;

/// How far a stripe is from loss. Kind 1 is whole; 2 at risk, with this margin; 3 unavailable; 4 lost.
#[repr(C)]
#[derive(Clone, Copy)]
pub struct LrcLevel {
    pub kind: u8,
    pub margin: u8,
    pub reserved: [u8; 2],
}

impl LrcLevel {
    /// The record of a level.
    pub fn of(level: Level) -> LrcLevel
        ensures { result ≡ encoded_level level }
    {
        let (kind, margin) = match level {
            Level::Whole => (1, 0),
            Level::AtRisk(margin) => (2, margin),
            Level::Unavailable => (3, 0),
            Level::Lost => (4, 0),
        };
        LrcLevel {
            kind,
            margin,
            reserved: [0; 2],
        }
    }
}
