ghost use Rattle.std.specs.Prelude.{◌≡◌, ℕ, ◌+◌, ◌≤◌, ◌<◌, length, true, false, IsTrue, IsSome, IfSome, Some, slice_set};
ghost use Rattle.lrc_slots.specs.Indexes.{is_listing_of, is_listed};
ghost use Rattle.lrc_slots.specs.Slots.{least_free};
ghost use Rattle.lrc_slots.specs.Tables.{is_marked};
ghost use Rattle.lrc_slots.specs.Rows.{fresh_row, alone, row_load};

use crate::listing::Listing;
use crate::{OpenNode, OpenRow};
use lrc_bits::BitSet;
use lrc_code::NodeNo;
use lrc_topology::NodeInfo;
use std::marker::Model;

/// A node of the table: whether it is eligible, and which of its slots are taken. The table has its load.
#[derive(Drop)]
pub(crate) struct NodeSlots {
    node: NodeInfo,
    eligible: bool,
    marks: BitSet<4>,
}

impl Model for NodeSlots {
    ghost use Rattle.lrc_slots.specs.Tables.{Row};
    ghost use Rattle.lrc_slots.specs.Rows.{row_of, AreMarks};

    ghost Value = { Row };

    ghost view = { λ s. row_of s.node s.eligible s.marks };

    ghost invariant = { λ s. AreMarks s.node s.marks };
}

impl NodeSlots {
    /// Returns an eligible node with all slots free. `node.slots` is at most 256.
    pub(crate) fn new(node: NodeInfo) -> NodeSlots
        requires { node.slots ≤ 256 }
        ensures { result ≡ fresh_row node }
    {
        NodeSlots {
            node,
            eligible: true,
            marks: BitSet::new(),
        }
    }

    /// Returns the number of the node.
    pub(crate) fn number(&self) -> NodeNo
        ensures { result ≡ self.now.node.number }
    {
        self.node.number
    }

    /// Returns the node.
    pub(crate) fn node(&self) -> &NodeInfo
        ensures { result.now ≡ self.now.node }
    {
        &self.node
    }

    /// Reports whether the slot is taken. Returns `false` after the last slot.
    pub(crate) fn is_taken(&self, slot: u16) -> bool
        ensures value { result ≡ is_marked self.now slot }
        ensures within { IsTrue result → slot < self.now.node.slots }
    {
        if slot < self.node.slots {
            self.marks.contains(slot as usize)
        } else {
            false
        }
    }

    /// Returns the lowest free slot, or `None` if all are taken.
    pub(crate) fn first_free(&self) -> Option<u16>
        ensures value { result ≡ least_free (alone self.now) self.now.node }
        ensures within { IfSome result (λ k. k < length self.now.taken) }
        ensures free { IfSome result (λ k. is_marked self.now k ≡ false) }
    {
        match self.marks.first_absent() {
            Some(slot) => {
                if slot < self.node.slots as usize {
                    Some(slot as u16)
                } else {
                    None
                }
            }
            None => None,
        }
    }

    /// Returns the node and its lowest free slot. The node must have one.
    pub(crate) fn open(&self) -> OpenNode
        requires { IsSome (least_free (alone self.now) self.now.node) }
        ensures node { result.node ≡ self.now.node }
        ensures slot { least_free (alone self.now) self.now.node ≡ Some result.slot }
    {
        OpenNode {
            node: self.node,
            slot: self.known_free(),
        }
    }

    /// Returns a reference to the node, and its lowest free slot. The node must have one.
    pub(crate) fn open_row(&self) -> OpenRow<'_>
        requires { IsSome (least_free (alone self.now) self.now.node) }
        ensures node { result.node.now ≡ self.now.node }
        ensures slot { least_free (alone self.now) self.now.node ≡ Some result.slot }
    {
        OpenRow {
            node: &self.node,
            slot: self.known_free(),
        }
    }

    /// Returns the lowest free slot. The node must have one.
    fn known_free(&self) -> u16
        requires { IsSome (least_free (alone self.now) self.now.node) }
        ensures { least_free (alone self.now) self.now.node ≡ Some result }
    {
        self.marks.first_absent().unwrap() as u16
    }

    /// Returns the node's load, and whether the node takes seats: it is eligible and has a free slot.
    #[inline(always)]
    pub(crate) fn listing(&self, load: u16) -> Listing
        requires { load ≡ row_load self.now }
        ensures value { (k : ℕ) → is_listing_of result k ≡ is_listed self.now k }
        ensures few { IsTrue result.is_open → result.load < 256 }
    {
        let is_open = self.eligible && load < self.node.slots;
        Listing { load, is_open }
    }

    /// Returns the same as `listing`, for a node with a free slot; this saves the test for one.
    #[inline(always)]
    pub(crate) fn listing_with_room(&self, load: u16) -> Listing
        requires load { load ≡ row_load self.now }
        requires room { IsSome (least_free (alone self.now) self.now.node) }
        ensures value { (k : ℕ) → is_listing_of result k ≡ is_listed self.now k }
        ensures few { IsTrue result.is_open → result.load < 256 }
    {
        Listing {
            load,
            is_open: self.eligible,
        }
    }

    /// Takes the slot, which must be free and one of the node's.
    pub(crate) fn take(&mut self, slot: u16)
        requires within { slot < self.old.node.slots }
        requires free { is_marked self.old slot ≡ false }
        ensures within { slot < length self.old.taken }
        ensures taken { self.new ≡ record self.old { taken = slice_set self.old.taken slot true } }
        ensures load { row_load self.new ≡ row_load self.old + 1 }
        ensures few { row_load self.new ≤ 256 }
    {
        self.marks.insert(slot as usize);
    }

    /// Frees the slot, which must be taken.
    pub(crate) fn free(&mut self, slot: u16)
        requires within { slot < length self.old.taken }
        requires taken { is_marked self.old slot ≡ true }
        ensures freed { self.new ≡ record self.old { taken = slice_set self.old.taken slot false } }
        ensures load { row_load self.old ≡ row_load self.new + 1 }
        ensures room { IsSome (least_free (alone self.new) self.new.node) }
    {
        self.marks.remove(slot as usize);
    }

    /// Sets whether the node is eligible for new seats.
    pub(crate) fn set_eligible(&mut self, eligible: bool)
        ensures { self.new ≡ record self.old { eligible = eligible } }
    {
        self.eligible = eligible;
    }
}
