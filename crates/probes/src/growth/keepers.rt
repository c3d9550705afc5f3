//! Calls of a keeper and a viewer.

ghost use Rattle.std.specs.Prelude.{◌≡◌, []};
ghost use Rattle.lrc_rules.specs.Histories.{first_world};

use crate::growth::books::look;
use crate::growth::trial::{Call, FIRST, Host, Looked, NODE, ONE, Risk, Trial, begin, end};
use crate::stop::Stop;
use crate::store::new_book;
use lrc_board::{Keeper, LookError, NewLog, OpenError, ViewNaming, Viewer};
use lrc_book::Book;
use lrc_code::{NodeNo, StripeNo};
use std::marker::Brand;

/// Opens a keeper over a new book, and returns whether an allocation failed.
pub(crate) fn open_once(rt: &impl Host) -> Result<bool, Stop> {
    let book = new_book(rt.alloc())?;
    open_over::<Brand, _>(rt, book, NewLog::new())
}

fn open_over<N: ViewNaming, R: Host>(rt: &R, book: Book, log: NewLog) -> Result<bool, Stop>
    requires book { (book.history ≡ []) × (book.nodes ≡ N.topology) × (book.limit ≡ N.limit) × (book.base ≡ first_world) × (book.before ≡ 0) }
    requires log { (log.prefix.book ≡ N.log) × (log.permit.nib.key ≡ N.start) }
{
    begin(rt);
    match Keeper::<N>::open(rt.alloc(), rt, book, log, 2) {
        Ok((keeper, viewers)) => {
            drop(viewers);
            drop(keeper.into_book(rt));
            end(rt, &Ok::<(), OpenError>(()))
        }
        Err(error) => end(rt, &Err::<(), OpenError>(error)),
    }
}

/// Tries a call of a new keeper.
pub(crate) fn try_call<R: Host>(rt: &R, call: Call, text: &str) -> Result<(), Stop> {
    let trial = Trial::read(rt.alloc(), call, text)?;
    let book = new_book(rt.alloc())?;
    try_over::<Brand, _>(rt, book, NewLog::new(), &trial)
}

fn try_over<N: ViewNaming, R: Host>(
    rt: &R,
    book: Book,
    log: NewLog,
    trial: &Trial,
) -> Result<(), Stop>
    requires book { (book.history ≡ []) × (book.nodes ≡ N.topology) × (book.limit ≡ N.limit) × (book.base ≡ first_world) × (book.before ≡ 0) }
    requires log { (log.prefix.book ≡ N.log) × (log.permit.nib.key ≡ N.start) }
{
    let (mut keeper, mut viewers) = Keeper::<N>::open(rt.alloc(), rt, book, log, 1)?;
    let told = try_on(rt, &mut keeper, viewers.as_mut_slice(), trial);
    drop(viewers);
    drop(keeper.into_book(rt));
    told
}

fn try_on<N: ViewNaming, R: Host>(
    rt: &R,
    keeper: &mut Keeper<N>,
    viewers: &mut [Viewer<N>],
    trial: &Trial,
) -> Result<(), Stop> {
    let viewer = viewers.first_mut().ok_or(Stop::Failed)?;
    for command in trial.before.as_slice() {
        keeper.apply(rt, FIRST, *command)?;
    }
    look_at(rt, keeper, viewer, trial)?;
    if try_once(rt, keeper, viewer, trial)? {
        try_once(rt, keeper, viewer, trial)?;
    }
    Ok(())
}

/// Prints all that a keeper reports, and how much a viewer has seen. The viewer sees all of it if the call is a command.
fn look_at<N: ViewNaming, R: Host>(
    rt: &R,
    keeper: &mut Keeper<N>,
    viewer: &mut Viewer<N>,
    trial: &Trial,
) -> Result<(), Stop> {
    look(rt, keeper.book())?;
    if let Call::Command = trial.call {
        keeper.show(viewer);
        view(rt, viewer)?;
    }
    println!(rt; "seen {}", viewer.count())?;
    Ok(())
}

/// Prints all that a viewer sees.
fn view<N: ViewNaming>(rt: &impl Host, viewer: &mut Viewer<N>) -> Result<(), Stop> {
    for value in 1..4 {
        let seen = viewer.level_of(StripeNo { value })?;
        println!(rt; "sees stripe {value} {:?} at {}", seen.value, seen.front)?;
    }
    for value in 0..21 {
        let seen = viewer.load_of(NodeNo { value })?;
        println!(rt; "sees node {value} {:?} at {}", seen.value, seen.front)?;
    }
    println!(rt; "sees risk {:?}", risk(rt, viewer))?;
    Ok(())
}

/// Makes the call, and returns whether an allocation failed.
fn try_once<N: ViewNaming, R: Host>(
    rt: &R,
    keeper: &mut Keeper<N>,
    viewer: &mut Viewer<N>,
    trial: &Trial,
) -> Result<bool, Stop> {
    begin(rt);
    let is_refused = match trial.call {
        Call::Command => end(rt, &keeper.apply(rt, FIRST, trial.last))?,
        Call::Risk => end(rt, &risk(rt, viewer))?,
        _ => end(rt, &see(viewer))?,
    };
    look_at(rt, keeper, viewer, trial)?;
    Ok(is_refused)
}

fn risk<N: ViewNaming>(rt: &impl Host, viewer: &mut Viewer<N>) -> Result<Risk, LookError> {
    let seen = viewer.risk(rt.alloc())?;
    Ok((seen.value, seen.front))
}

fn see<N: ViewNaming>(viewer: &mut Viewer<N>) -> Result<Looked, LookError> {
    let level = viewer.level_of(ONE)?;
    let load = viewer.load_of(NODE)?;
    Ok((level.value, load.value))
}
