//! Books over twenty nodes: a lease that another session takes over, and histories that are full.

ghost use Rattle.std.specs.Prelude.{◌≤◌};

use crate::expect::expect_number;
use crate::sessions::leases::{NODE, THREE, granted};
use lrc_book::{Book, Command, Refusal, Reply};
use lrc_code::{Fault, SessionNo, StripeNo};
use lrc_samples::{first_seats, second_seats, twenty_nodes};
use std::alloc::Global;
use std::process::Abort;
use std::test::Fail;

/// A command and its expected reply.
type Row = (Command, Reply);

const FIRST: SessionNo = SessionNo { value: 1 };

const SECOND: SessionNo = SessionNo { value: 2 };

const ONE: StripeNo = StripeNo { value: 1 };

const TWO: StripeNo = StripeNo { value: 2 };

/// Makes a book over twenty nodes whose history has at most `limit` entries.
fn limited(alloc: Global, limit: u32) -> Result<Book, Fail>
    requires limit { limit ≤ 1000000 }
{
    Ok(Book::with_limit(alloc, twenty_nodes(alloc)?, limit)?)
}

fn call(book: &mut Book, session: SessionNo, command: Command) -> Result<Reply, Fault> {
    book.call(session, command)
}

/// These commands are made in order, and each has the reply next to it.
fn expect_replies(rt: &impl Abort, book: &mut Book, session: SessionNo, rows: &[Row]) {
    for (command, reply) in rows {
        assert!(rt; call(book, session, *command) == Ok(*reply));
    }
}

/// The history has as many entries as it may have, so that no command is made.
fn expect_full(rt: &impl Abort, book: &mut Book, command: Command) {
    assert!(rt; call(book, FIRST, command) == Err(Fault::HistoryFull));
}

#[test]
fn only_the_holder_reports_and_any_session_revokes(rt: HostRuntime) -> Result<(), Fail> {
    let mut book = limited(rt.alloc(), 1000)?;
    take_over(&rt, &mut book);
    book.close();
    Ok(())
}

fn take_over(rt: &impl Abort, book: &mut Book) {
    let rows = [
        (Command::Place(ONE), Reply::Placed(first_seats())),
        (Command::Fail(NODE), Reply::Changed),
        (Command::Lease(ONE, THREE), granted(FIRST, 1)),
    ];
    expect_replies(rt, book, FIRST, &rows);
    let other = Reply::Refused(Refusal::NotHolder(FIRST));
    let rows = [
        (Command::Done(ONE, THREE, 1), other),
        (Command::Revoke(ONE, THREE), Reply::Ended),
        (Command::Lease(ONE, THREE), granted(SECOND, 2)),
    ];
    expect_replies(rt, book, SECOND, &rows);
}

#[test]
fn a_history_of_two_entries_takes_no_third(rt: HostRuntime) -> Result<(), Fail> {
    let mut book = limited(rt.alloc(), 2)?;
    place_both(&rt, &mut book);
    book.close();
    Ok(())
}

fn place_both(rt: &impl Abort, book: &mut Book) {
    let rows = [
        (Command::Place(ONE), Reply::Placed(first_seats())),
        (Command::Place(TWO), Reply::Placed(second_seats())),
    ];
    expect_replies(rt, book, FIRST, &rows);
    expect_full(rt, book, Command::Next);
    expect_number(rt, book.history().len() as u64, 2);
}

#[test]
fn a_history_without_room_takes_no_call(rt: HostRuntime) -> Result<(), Fail> {
    let mut book = limited(rt.alloc(), 0)?;
    refuse_all(&rt, &mut book);
    book.close();
    Ok(())
}

fn refuse_all(rt: &impl Abort, book: &mut Book) {
    for command in [Command::Place(ONE), Command::Next, Command::Tick] {
        expect_full(rt, book, command);
    }
    expect_number(rt, book.history().len() as u64, 0);
}
