//! Finds the row of the node that gets the next seat beside barred domains.

ghost use Rattle.std.specs.Prelude.{◌≡◌, ℕ, ◌<◌, true, length, get_or, IsSome, IfSome, IfOk, map, filter, option_copied, Contains};
ghost use Rattle.lrc_code.specs.Order.{least};
ghost use Rattle.lrc_topology.specs.Nodes.{AreNodes};
ghost use Rattle.lrc_slots.specs.Slots.{least_free};
ghost use Rattle.lrc_slots.specs.Rows.{alone, is_open, precedes};
ghost use Rattle.lrc_slots.specs.Indexes.{listed, is_barred_at, FindsLeast, FindsOpen, IsOf, IsOfWord, AreOfRows};

use crate::node_slots::NodeSlots;
use crate::ordinal_set::OrdinalSet;
use crate::ordinal_sets::OrdinalSets;
use crate::{Barring, SlotTable};

/// The number of rows to test one by one, before the set of all barred nodes is built.
const TESTED: u32 = 16;

/// As many rows have been tested as may be, and all of their nodes are barred.
struct Stopped;

impl SlotTable {
    /// Returns the row of the node that gets the next seat. Tests one row after the other, of which one of the first is
    /// nearly always free; after `TESTED` rows it builds the set of all barred nodes.
    pub(crate) fn first_beside<B: Barring>(&self, bars: &B) -> Option<&NodeSlots>
        ensures row { option_copied result ≡ least precedes (filter (is_open (B.barred bars.now)) self.now) }
        ensures known { IfSome result (λ r. Contains self.now r.now) }
        ensures room { IfSome result (λ r. IsSome (least_free (alone r.now) r.now.node)) }
        ensures nodes { AreNodes (map (λ r. r.node) self.now) }
    {
        let mut tests = TESTED;
        match first_ordinal(&self.by_load, &self.rows, &self.order, bars, &mut tests) {
            Ok(found) => {
                let ordinal = found?;
                let position = self.order[ordinal] as usize;
                Some(&self.rows[position])
            }
            Err(Stopped) => {
                let barred_nodes = bars.nodes_in(self);
                self.first_outside_both(&barred_nodes, &barred_nodes)
            }
        }
    }
}

/// Returns the first ordinal, by load and then by ordinal, whose node is not barred. `tests` is the number of rows that it
/// may test.
#[inline(always)]
fn first_ordinal<B: Barring>(
    by_load: &OrdinalSets,
    rows: &[NodeSlots],
    order: &[u16],
    bars: &B,
    tests: &mut u32,
) -> Result<Option<usize>, Stopped>
    requires { (load ordinal : ℕ) → listed by_load.now load ordinal ≡ true → (ordinal < length order.now) × (get_or order.now ordinal 0 < length rows.now) }
    ensures { IfOk result (FindsLeast by_load.now (is_barred_at rows.now order.now (B.barred bars.now))) }
{
    let mut loads = by_load.used();
    while let Some(load) = loads.next_member() {
        let ordinals = by_load.under(load);
        if let Some(ordinal) = first_of_load(ordinals, rows, order, bars, tests)? {
            return Ok(Some(ordinal));
        }
    }
    Ok(None)
}

/// Returns the lowest ordinal with this load whose node is not barred, likewise.
#[inline(always)]
fn first_of_load<B: Barring>(
    ordinals: &OrdinalSet,
    rows: &[NodeSlots],
    order: &[u16],
    bars: &B,
    tests: &mut u32,
) -> Result<Option<usize>, Stopped>
    requires { AreOfRows rows.now order.now ordinals.now }
    ensures { IfOk result (FindsOpen (IsOf ordinals.now) (is_barred_at rows.now order.now (B.barred bars.now))) }
{
    let mut words = ordinals.words();
    while let Some(word) = words.pop_first() {
        if let Some(ordinal) = first_of_word(ordinals, word, rows, order, bars, tests)? {
            return Ok(Some(ordinal));
        }
    }
    Ok(None)
}

/// Returns the lowest ordinal in one word whose node is not barred, likewise.
#[inline(always)]
fn first_of_word<B: Barring>(
    ordinals: &OrdinalSet,
    word: usize,
    rows: &[NodeSlots],
    order: &[u16],
    bars: &B,
    tests: &mut u32,
) -> Result<Option<usize>, Stopped>
    requires word { word < 8 }
    requires rows { AreOfRows rows.now order.now ordinals.now }
    ensures { IfOk result (FindsOpen (IsOfWord ordinals.now word) (is_barred_at rows.now order.now (B.barred bars.now))) }
{
    let mut left = ordinals.of_word(word);
    while let Some(bit) = left.pop_first() {
        if *tests == 0 {
            return Err(Stopped);
        }
        *tests -= 1;
        let ordinal = 64 * word + bit;
        let position = order[ordinal] as usize;
        let row = &rows[position];
        if !bars.bars(row.node()) {
            return Ok(Some(ordinal));
        }
    }
    Ok(None)
}
