ghost use Rattle.std.specs.Prelude.{◌≡◌};
ghost use Rattle.lrc_records.specs.Shown.{encoded_node};

use crate::mode::{flag, mode_number};
use lrc_rules::Mode;
use lrc_topology::NodeInfo;

/// A node of the store: its number, its slots and domains from the text; the number of held seats on it; its mode, as in
/// `LrcMode`; and whether it is online, and down.
#[repr(C)]
#[derive(Clone, Copy)]
pub struct LrcNode {
    pub number: u16,
    pub slots: u16,
    pub load: u32,
    pub fault: u8,
    pub upgrade: u8,
    pub mode: u8,
    pub is_online: u8,
    pub is_down: u8,
    pub reserved: [u8; 3],
}

impl LrcNode {
    /// The record of a node, from its mode and whether it is online, whether it is down, and its load.
    pub fn of(node: &NodeInfo, shown: (Mode, bool), is_down: bool, load: u32) -> LrcNode
        ensures { result ≡ encoded_node node.now shown is_down load }
    {
        let (mode, is_online) = shown;
        LrcNode {
            number: node.number.value,
            slots: node.slots,
            load,
            fault: node.fault.value,
            upgrade: node.upgrade.value,
            mode: mode_number(mode),
            is_online: flag(is_online),
            is_down: flag(is_down),
            reserved: [0; 3],
        }
    }
}
