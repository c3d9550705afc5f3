ghost use Rattle.std.specs.Prelude.{◌≡◌, ◌<◌, List, filter_map};
ghost use Rattle.std.specs.Iterator.{YieldsFirst, item_count};
ghost use Rattle.lrc_leases.specs.Kept.{node_chain, passing_at};
ghost use Rattle.lrc_terms.specs.Leased.{is_target_on};

use crate::Lease;
use crate::chains::CHAINS;
use crate::walk::Walk;
use lrc_code::NodeNo;
use slab::Slab;
use std::marker::Model;

/// The chain of the leases whose target is on a node. Nodes whose numbers are 512 apart share one.
pub(crate) fn node_chain(node: NodeNo) -> usize
    ensures value { result ≡ node_chain node }
    ensures low { result < 512 }
{
    usize::from(node.value) % CHAINS
}

/// The leases whose target is on one node.
#[derive(Drop)]
pub struct TargetsOn<'a> {
    slab: &'a Slab<Lease>,
    numbers: Walk<'a>,
    node: NodeNo,
}

impl<'a> Model for TargetsOn<'a> {
    ghost use Rattle.std.specs.Prelude.{List, filter_map};
    ghost use Rattle.lrc_terms.specs.declared.lease.Lease.{Lease as OneLease};
    ghost use Rattle.lrc_leases.specs.Kept.{passing_at};
    ghost use Rattle.lrc_terms.specs.Leased.{is_target_on};

    ghost Value = { List OneLease };

    ghost view = { λ w. filter_map (passing_at (is_target_on w.node) w.slab.now) w.numbers };
}

impl<'a> TargetsOn<'a> {
    /// The leases with these numbers whose target is on the node.
    pub(crate) fn new(slab: &'a Slab<Lease>, numbers: Walk<'a>, node: NodeNo) -> TargetsOn<'a>
        ensures { result ≡ filter_map (passing_at (is_target_on node) slab.now) numbers.entry }
    {
        TargetsOn {
            slab,
            numbers,
            node,
        }
    }
}

impl<'a> Iterator for TargetsOn<'a> {
    ghost use Rattle.lrc_terms.specs.declared.lease.Lease.{Lease as OneLease};

    type Item = Lease;

    ghost next_gives = { YieldsFirst (λ (leases : List OneLease). leases) };

    ghost remaining = { item_count (λ (leases : List OneLease). leases) };

    fn next(&mut self) -> Option<Lease> {
        while let Some(number) = self.numbers.next() {
            if let Some(lease) = target(self.slab, number, self.node) {
                return Some(lease);
            }
        }
        None
    }
}

/// The lease with this number, if its target is on a node.
fn target(slab: &Slab<Lease>, number: usize, node: NodeNo) -> Option<Lease>
    ensures { result ≡ passing_at (is_target_on node) slab.now number }
{
    let key = number.checked_sub(1)?;
    let lease = slab.get(key).copied()?;
    if lease.target.node == node {
        Some(lease)
    } else {
        None
    }
}
