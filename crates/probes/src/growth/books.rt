//! Calls of a book.

use crate::growth::trial::{Call, FIRST, Host, Trial, begin, end};
use crate::stop::Stop;
use crate::store::new_book;
use lrc_book::{Book, Command};
use lrc_code::{Fragment, NodeNo, StripeNo};

/// Prints all that a book reports: its entries, its clock, two stripes and one that it lacks, its nodes and one that it
/// lacks.
pub(crate) fn look(rt: &impl Host, book: &Book) -> Result<(), Stop> {
    for entry in book.history() {
        println!(rt; "{:?}", entry.entry())?;
    }
    println!(rt; "clock {}", book.clock())?;
    for value in 1..4 {
        look_at_stripe(rt, book, StripeNo { value })?;
    }
    for value in 0..21 {
        let node = NodeNo { value };
        println!(rt; "node {value} {:?} {:?}", book.load(node), book.mode(node))?;
    }
    println!(rt; "risk {:?}", book.risk(rt.alloc()))?;
    Ok(())
}

fn look_at_stripe(rt: &impl Host, book: &Book, stripe: StripeNo) -> Result<(), Stop> {
    println!(rt;
        "{stripe:?} {:?} {:?} {:?}",
        book.code(stripe),
        book.level(stripe),
        book.missing(stripe)
    )?;
    println!(rt; "homes {:?}", book.homes(stripe))?;
    for fragment in Fragment::all() {
        println!(rt; "lease {:?}", book.lease(stripe, fragment))?;
    }
    Ok(())
}

/// Tries a call of a new book.
pub(crate) fn try_call(rt: &impl Host, call: Call, text: &str) -> Result<(), Stop> {
    let trial = Trial::read(rt.alloc(), call, text)?;
    let mut book = new_book(rt.alloc())?;
    let told = try_on(rt, &mut book, &trial);
    drop(book);
    told
}

fn try_on(rt: &impl Host, book: &mut Book, trial: &Trial) -> Result<(), Stop> {
    for command in trial.before.as_slice() {
        book.call(FIRST, *command)?;
    }
    look(rt, book)?;
    if try_once(rt, book, trial)? {
        try_once(rt, book, trial)?;
    }
    Ok(())
}

/// Makes the call, and returns whether an allocation failed.
fn try_once(rt: &impl Host, book: &mut Book, trial: &Trial) -> Result<bool, Stop> {
    if let Call::Prepare = trial.call {
        return prepare_once(rt, book, trial.last);
    }
    begin(rt);
    let is_refused = match trial.call {
        Call::Command => end(rt, &book.call(FIRST, trial.last))?,
        Call::Decide => end(rt, &book.decide(FIRST, trial.last))?,
        _ => end(rt, &book.risk(rt.alloc()))?,
    };
    look(rt, book)?;
    Ok(is_refused)
}

/// Reserves memory for a command, and commits it if that succeeds.
fn prepare_once(rt: &impl Host, book: &mut Book, command: Command) -> Result<bool, Stop> {
    let entry = book.decide(FIRST, command)?;
    begin(rt);
    let prepared = book.prepare();
    end(rt, &prepared)?;
    look(rt, book)?;
    match prepared {
        Ok(()) => {
            println!(rt; "{:?}", book.commit(entry))?;
            look(rt, book)?;
            Ok(false)
        }
        Err(_fault) => Ok(true),
    }
}
