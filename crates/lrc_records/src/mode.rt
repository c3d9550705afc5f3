ghost use Rattle.std.specs.Prelude.{◌≡◌};
ghost use Rattle.lrc_records.specs.Shown.{flag, mode_number, encoded_mode};

use lrc_rules::Mode;

/// The mode of a node: 1 is active, 2 draining and 3 gone; and 1 if it is online, else 0.
#[repr(C)]
#[derive(Clone, Copy)]
pub struct LrcMode {
    pub mode: u8,
    pub is_online: u8,
    pub reserved: [u8; 2],
}

impl LrcMode {
    /// The record of a node's mode, and of whether it is online.
    pub fn of(found: (Mode, bool)) -> LrcMode
        ensures { result ≡ encoded_mode found }
    {
        let (mode, is_online) = found;
        LrcMode {
            mode: mode_number(mode),
            is_online: flag(is_online),
            reserved: [0; 2],
        }
    }
}

/// The number of a mode.
pub(crate) fn mode_number(mode: Mode) -> u8
    ensures { result ≡ mode_number mode }
{
    match mode {
        Mode::Active => 1,
        Mode::Draining => 2,
        Mode::Gone => 3,
    }
}

/// 1 for true, 0 for false.
pub fn flag(value: bool) -> u8
    ensures { result ≡ flag value }
{
    if value { 1 } else { 0 }
}
