ghost use Rattle.std.specs.Prelude.{◌≡◌, ℕ, ◌<◌, ◌&&◌, nat_lt, set, get_or, length, replicate, is_some, false, None};
ghost use Rattle.std.specs.Option.{option_map_or};
ghost use Rattle.lrc_code.specs.Codes.{fragment_count};
ghost use Rattle.lrc_code.specs.Losses.{bits_set};
ghost use Rattle.lrc_homes.specs.Homes.{seated_homes, sits_on};

use crate::masks;
use lrc_code::{Code, FRAGMENTS, Fragment, LossMask, NodeNo};
use lrc_topology::Seat;
use std::marker::Model;
use std::simd::prelude::*;

/// The homes of the fragments of a stripe. The node numbers are one array, so that one vector instruction compares all of
/// them with a node, and the whole is small, so that a stripe costs few cache lines.
#[derive(Drop)]
pub struct Homes {
    /// The node of each home, by fragment number; any value for a fragment without a home.
    nodes: [u16; FRAGMENTS],
    /// The fragments that have a home.
    homed: LossMask,
    /// The slot of each home, likewise.
    slots: [u16; FRAGMENTS],
}

impl Model for Homes {
    ghost use Rattle.std.specs.Prelude.{List, Option};
    ghost use Rattle.lrc_topology.specs.declared.seat.Seat.{Seat as AnySeat};
    ghost use Rattle.lrc_homes.specs.HomeArrays.{AreHomeArrays, homes_of};

    ghost Value = { List (Option AnySeat) };

    ghost view = { λ h. homes_of h.nodes h.slots h.homed.bits };

    ghost invariant = { λ h. AreHomeArrays h.nodes h.slots h.homed.bits };
}

impl Homes {
    /// No fragment has a home.
    pub fn new() -> Homes
        ensures { result ≡ replicate 16 None }
    {
        Homes {
            nodes: [0; FRAGMENTS],
            homed: LossMask::from_bits(0),
            slots: [0; FRAGMENTS],
        }
    }

    /// The homes of a stripe of the code on these seats, one for each fragment, by rising fragment
    /// number.
    pub fn seated(code: Code, seats: &[Seat]) -> Homes
        requires { length seats.now ≡ fragment_count code }
        ensures { result ≡ seated_homes seats.now }
    {
        let mut nodes = [0; FRAGMENTS];
        let mut slots = [0; FRAGMENTS];
        for number in 0..code.fragments() as usize {
            nodes[number] = seats[number].node.value;
            slots[number] = seats[number].slot;
        }
        Homes {
            nodes,
            homed: LossMask::all_of(code),
            slots,
        }
    }

    /// A copy of the homes.
    pub fn again(&self) -> Homes
        ensures { result ≡ self.now }
    {
        // (`Copy` can't be derived for a type with a model)
        Homes {
            nodes: self.nodes,
            homed: LossMask::from_bits(self.homed.bits),
            slots: self.slots,
        }
    }

    /// The home of a fragment, if it has one.
    pub fn home(&self, fragment: Fragment) -> Option<Seat>
        ensures { result ≡ get_or self.now fragment.value None }
    {
        if !self.homed.contains(fragment) {
            return None;
        }
        Some(Seat {
            node: NodeNo {
                value: self.nodes[fragment.value as usize],
            },
            slot: self.slots[fragment.value as usize],
        })
    }

    /// The homes, by fragment number from 0 to 15. There must be sixteen of them.
    pub fn all(&self) -> [Option<Seat>; FRAGMENTS]
        requires { length self.now ≡ 16 }
        ensures { result ≡ self.now }
    {
        let mut homes = [None; FRAGMENTS];
        for fragment in Fragment::all() {
            homes[fragment.value as usize] = self.home(fragment);
        }
        homes
    }

    /// Sets the home of a fragment, or clears it.
    pub fn put(&mut self, fragment: Fragment, home: Option<Seat>)
        ensures { self.new ≡ set self.old fragment.value home }
    {
        match home {
            Some(seat) => {
                self.nodes[fragment.value as usize] = seat.node.value;
                self.slots[fragment.value as usize] = seat.slot;
                self.homed = self.homed.with(fragment);
            }
            None => self.homed = self.homed.without(fragment),
        }
    }

    /// The fragments that have a home.
    pub fn homed(&self) -> LossMask
        ensures few { result.bits < 65536 }
        ensures homed { (f : ℕ) → bits_set result.bits f ≡ is_some (get_or self.now f None) }
    {
        LossMask::from_bits(self.homed.bits)
    }

    /// The fragments with a home on the node. One vector instruction compares all sixteen nodes.
    pub fn fragments_on(&self, node: NodeNo) -> LossMask
        ensures few { result.bits < 65536 }
        ensures on { (f : ℕ) → bits_set result.bits f ≡ (nat_lt f 16 && sits_on node (get_or self.now f None)) }
    {
        let alike = u16x16::from_array(self.nodes).simd_eq(u16x16::splat(node.value));
        LossMask::from_bits(alike.to_bitmask() as u16 & self.homed.bits)
    }
    /// The fragments with a home on a node whose flag is set. There is a flag for each node number.
    pub fn fragments_where(&self, flags: &[bool]) -> LossMask
        requires { length flags.now ≡ 65536 }
        ensures few { result.bits < 65536 }
        ensures on { (f : ℕ) → bits_set result.bits f ≡ (nat_lt f 16 && option_map_or (λ seat. get_or flags.now seat.node.value false) (get_or self.now f None) false) }
    {
        let flagged = fragments_flagged(&self.nodes, flags);
        LossMask::from_bits(flagged.bits & self.homed.bits)
    }
}

/// The fragments for which a number is stored whose flag is set.
fn fragments_flagged(numbers: &[u16; FRAGMENTS], flags: &[bool]) -> LossMask
    requires { length flags.now ≡ 65536 }
    ensures { (f : ℕ) → bits_set result.bits f ≡ (nat_lt f 16 && get_or flags.now (get_or numbers.now f 0) false) }
{
    let mut mask = LossMask::from_bits(0);
    for fragment in Fragment::all() {
        let number = numbers[fragment.value as usize];
        mask = masks::with_where(mask, fragment, flags[usize::from(number)]);
    }
    mask
}
