ghost use Rattle.std.specs.Prelude.{◌≡◌, ◌<◌, List, filter_map};
ghost use Rattle.std.specs.Iterator.{YieldsFirst, item_count};
ghost use Rattle.lrc_leases.specs.Kept.{clock_chain, passing_at};
ghost use Rattle.lrc_terms.specs.Leased.{ends_at};

use crate::Lease;
use crate::chains::CHAINS;
use crate::walk::Walk;
use slab::Slab;
use std::marker::Model;

/// The chain of the leases that end at a clock. Clocks that are 512 apart share one.
pub(crate) fn clock_chain(clock: u32) -> usize
    ensures value { result ≡ clock_chain clock }
    ensures low { result < 512 }
{
    clock as usize % CHAINS
}

/// The leases that end at one clock.
#[derive(Drop)]
pub struct EndingAt<'a> {
    slab: &'a Slab<Lease>,
    numbers: Walk<'a>,
    clock: u32,
}

impl<'a> Model for EndingAt<'a> {
    ghost use Rattle.std.specs.Prelude.{List, filter_map};
    ghost use Rattle.lrc_terms.specs.declared.lease.Lease.{Lease as OneLease};
    ghost use Rattle.lrc_leases.specs.Kept.{passing_at};
    ghost use Rattle.lrc_terms.specs.Leased.{ends_at};

    ghost Value = { List OneLease };

    ghost view = { λ w. filter_map (passing_at (ends_at w.clock) w.slab.now) w.numbers };
}

impl<'a> EndingAt<'a> {
    /// The leases with these numbers that end at the clock.
    pub(crate) fn new(slab: &'a Slab<Lease>, numbers: Walk<'a>, clock: u32) -> EndingAt<'a>
        ensures { result ≡ filter_map (passing_at (ends_at clock) slab.now) numbers.entry }
    {
        EndingAt {
            slab,
            numbers,
            clock,
        }
    }
}

impl<'a> Iterator for EndingAt<'a> {
    ghost use Rattle.lrc_terms.specs.declared.lease.Lease.{Lease as OneLease};

    type Item = Lease;

    ghost next_gives = { YieldsFirst (λ (leases : List OneLease). leases) };

    ghost remaining = { item_count (λ (leases : List OneLease). leases) };

    fn next(&mut self) -> Option<Lease> {
        while let Some(number) = self.numbers.next() {
            if let Some(lease) = ending(self.slab, number, self.clock) {
                return Some(lease);
            }
        }
        None
    }
}

/// The lease with this number, if it ends at a clock.
fn ending(slab: &Slab<Lease>, number: usize, clock: u32) -> Option<Lease>
    ensures { result ≡ passing_at (ends_at clock) slab.now number }
{
    let key = number.checked_sub(1)?;
    let lease = slab.get(key).copied()?;
    if lease.expiry == clock {
        Some(lease)
    } else {
        None
    }
}
