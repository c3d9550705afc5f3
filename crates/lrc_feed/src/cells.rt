//! The cells of calls, in segments that are made as they are needed.

ghost use Rattle.std.specs.Prelude.{◌≡◌, ◌+◌, ◌<◌, ◌^◌, ◌∷◌, IfOk};
ghost use Rattle.boxcar.specs.Table.{Tagged};
ghost use Rattle.lrc_feed.specs.Rules.{tag_numbers};

use crate::feed::FedCall;
use crate::law::FedCalls;
use boxcar::slot::{OnceSlot, SlotRule};
use boxcar::tag::{Names, Tag};
use std::alloc::{AllocError, Global};

/// The number of segments, and of the cells of each.
pub(crate) const CELLS: usize = 1024;

/// A call in its cell, with what shows that the feed has it there.
#[derive(Drop)]
pub(crate) struct Fed {
    pub(crate) call: FedCall,
    pub(crate) calls: FedCalls,
}

/// The rule of a cell.
pub(crate) struct CellRule;

impl SlotRule<Fed> for CellRule {
    ghost use Rattle.lrc_feed.specs.Rules.{IsFed};

    ghost holds = { λ tag fed. IsFed tag fed.call fed.calls.book fed.calls.log };
}

pub(crate) type Cell = OnceSlot<Fed, CellRule>;

/// The rule of a segment: its cells are those of the next 1,024 calls.
pub(crate) struct SegmentRule;

impl SlotRule<Vec<Cell>> for SegmentRule {
    ghost use Rattle.std.specs.Prelude.{◌*◌};
    ghost use Rattle.boxcar.specs.Table.{first, others, Tagged};

    ghost holds = { λ tag cells. Tagged (others tag) (1024 * first tag) 1024 cells.items };
}

pub(crate) type Segment = OnceSlot<Vec<Cell>, SegmentRule>;

/// What the tag of a cell or a segment is read off.
#[derive(Drop)]
struct Numbered {
    number: usize,
    calls: FedCalls,
}

struct ByNumber;

impl Names<Numbered> for ByNumber {
    ghost numbers = { λ it. it.number ∷ tag_numbers it.calls.book };
}

/// The tag of the cell or segment of this number of a feed.
fn tag_of(number: usize, calls: &FedCalls) -> Tag
    ensures { result.numbers ≡ number ∷ tag_numbers calls.now.book }
{
    Tag::of::<Numbered, ByNumber>(&Numbered {
        number,
        calls: calls.again(),
    })
}

/// Makes 1,024 cells or segments of a feed, with the numbers from `from` on.
pub(crate) fn new_row<T: Drop, P: SlotRule<T>>(
    alloc: Global,
    calls: &FedCalls,
    from: usize,
) -> Result<Vec<OnceSlot<T, P>>, AllocError>
    requires { from + 1024 < 2 ^ 64 }
    ensures { IfOk result (λ v. Tagged (tag_numbers calls.now.book) from 1024 v.items) }
{
    let mut slots = Vec::with_capacity(alloc, CELLS)?;
    let mut made = 0;
    while made < CELLS {
        slots.push_reserved(OnceSlot::new(&tag_of(from + made, calls)));
        made += 1;
    }
    Ok(slots)
}
