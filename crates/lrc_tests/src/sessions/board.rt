//! A keeper over twenty-one nodes: what viewers see of a batch and a call.

ghost use Rattle.std.specs.Prelude.{◌≡◌, [], IfOk};
ghost use Rattle.lrc_rules.specs.Histories.{first_world};

use super::{LAST, ONE, nodes};
use crate::expect::expect_number;
use lrc_board::{Batch, Keeper, NewLog, ViewNaming, Viewer};
use lrc_book::{Book, Command, Level};
use lrc_code::{NodeNo, SessionNo, StripeNo};
use std::alloc::Global;
use std::marker::Brand;
use std::process::Abort;
use std::sync::Wait;
use std::test::Fail;

fn book(alloc: Global) -> Result<Book, Fail>
    ensures { IfOk result (λ b. (b.history ≡ []) × (b.base ≡ first_world) × (b.before ≡ 0)) }
{
    Ok(Book::new(alloc, nodes(alloc)?)?)
}

#[test]
fn a_viewer_sees_what_it_was_shown(rt: HostRuntime) -> Result<(), Fail> {
    let book = book(rt.alloc())?;
    watch::<Brand, _>(&rt, rt.alloc(), book, NewLog::new());
    Ok(())
}

/// Of two viewers one is shown two calls and then a batch of two more, and the other nothing.
fn watch<N: ViewNaming, R: Wait + Abort>(rt: &R, alloc: Global, book: Book, log: NewLog)
    requires book { (book.history ≡ []) × (book.nodes ≡ N.topology) × (book.limit ≡ N.limit) × (book.base ≡ first_world) × (book.before ≡ 0) }
    requires log { (log.prefix.book ≡ N.log) × (log.permit.nib.key ≡ N.start) }
{
    let Ok((mut keeper, mut viewers)) = Keeper::<N>::open(alloc, rt, book, log, 2) else {
        panic!(rt; "a keeper and its viewers")
    };
    let mut viewer = take(rt, &mut viewers);
    let other = take(rt, &mut viewers);
    apply(rt, &mut keeper, Command::Place(ONE), 1);
    apply(rt, &mut keeper, Command::Fail(NodeNo { value: 3 }), 2);
    show(&mut keeper, &mut viewer);
    expect_count(rt, &viewer, 2);
    expect_seen(rt, alloc, &mut viewer);
    apply_both(rt, &mut keeper, &[Command::Place(LAST), Command::Tick]);
    show(&mut keeper, &mut viewer);
    expect_count(rt, &viewer, 4);
    assert!(rt; level(rt, &mut viewer, LAST) == Some(Level::Whole));
    expect_count(rt, &other, 0);
    close(rt, keeper.into_book(rt));
    close_viewer(viewer);
    close_viewer(other);
    close_viewers(viewers);
}

/// Drops a viewer. In a function of its own this is proved once.
fn close_viewer<N: ViewNaming>(_viewer: Viewer<N>) {}

fn close_viewers<N: ViewNaming>(_viewers: Vec<Viewer<N>>) {}

/// Expects four entries, and drops the book.
fn close(rt: &impl Abort, book: Book) {
    expect_number(rt, book.history().len() as u64, 4);
    book.close();
}

fn show<N: ViewNaming>(keeper: &mut Keeper<N>, viewer: &mut Viewer<N>) {
    keeper.show(viewer);
}

/// Expects the number of entries that a viewer has seen.
fn expect_count<N: ViewNaming>(rt: &impl Abort, viewer: &Viewer<N>, count: u64) {
    expect_number(rt, viewer.count(), count);
}

/// Expects that the first stripe has lost one fragment with node 3 and no other.
fn expect_seen<N: ViewNaming>(rt: &impl Abort, alloc: Global, viewer: &mut Viewer<N>) {
    assert!(rt; level(rt, viewer, ONE) == Some(Level::AtRisk(2)));
    for (value, seats) in [(3, Some(0)), (4, Some(1)), (99, None), (u16::MAX, Some(0))] {
        assert!(rt; load(rt, viewer, NodeNo { value }) == seats);
    }
    expect_at_risk(rt, alloc, viewer, (ONE, Level::AtRisk(2)));
}

fn take<N: ViewNaming>(rt: &impl Abort, viewers: &mut Vec<Viewer<N>>) -> Viewer<N> {
    let Some(viewer) = viewers.pop() else {
        panic!(rt; "one more viewer")
    };
    viewer
}

/// Makes the third and fourth call, by session 1, as one batch.
fn apply_both<N: ViewNaming, R: Wait + Abort>(
    rt: &R,
    keeper: &mut Keeper<N>,
    batch: &[Command; 2],
) {
    let (made, fault) = keeper.apply_all(rt, SessionNo { value: 1 }, batch);
    assert!(rt; made == Batch { first: 3, count: 2 } && fault.is_none());
}

/// Makes a call by session 1, and expects this place in the history.
fn apply<N: ViewNaming, R: Wait + Abort>(
    rt: &R,
    keeper: &mut Keeper<N>,
    command: Command,
    place: u64,
) {
    match keeper.apply(rt, SessionNo { value: 1 }, command) {
        Ok(receipt) => expect_number(rt, receipt.place, place),
        Err(_) => panic!(rt; "room for a call"),
    }
}

fn level<N: ViewNaming>(
    rt: &impl Abort,
    viewer: &mut Viewer<N>,
    stripe: StripeNo,
) -> Option<Level> {
    match viewer.level_of(stripe) {
        Ok(seen) => seen.value,
        Err(_) => panic!(rt; "a view"),
    }
}

fn load<N: ViewNaming>(rt: &impl Abort, viewer: &mut Viewer<N>, node: NodeNo) -> Option<u32> {
    match viewer.load_of(node) {
        Ok(seen) => seen.value,
        Err(_) => panic!(rt; "a view"),
    }
}

/// Expects this stripe alone at risk.
fn expect_at_risk<N: ViewNaming>(
    rt: &impl Abort,
    alloc: Global,
    viewer: &mut Viewer<N>,
    row: (StripeNo, Level),
) {
    match viewer.risk(alloc) {
        Ok(seen) => {
            assert!(rt; seen.value.as_slice() == [row].as_slice());
        }
        Err(_) => panic!(rt; "room and a view"),
    }
}
