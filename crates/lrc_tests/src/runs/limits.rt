//! A script whose history is full.

use super::batches::{Early, expect_ended, expect_told};
use super::{Ran, batch, run_rows};
use lrc_book::{Command, Reply};
use lrc_code::Fault;
use lrc_sessions::Stop;
use std::process::Abort;
use std::test::Fail;

/// The script has one command more than the history has room for. The gate was asked for it, and is not notified of it.
#[test]
fn a_full_history_stops_a_script(rt: HostRuntime) -> Result<(), Fail> {
    let leases = [Command::Next; 4];
    let gate = Early::at(1, 100);
    let ran = run_rows(&rt, rt.alloc(), 3, &[leases.as_slice()], &gate)?;
    let full = Stop::Fault(Fault::HistoryFull);
    expect_ended(&rt, &ran, full, &[batch(1, 1), batch(2, 1), batch(3, 1)], 3);
    expect_idle(&rt, &ran);
    expect_told(&rt, &gate, 1 + 2 + 3 + 4, 1 + 2 + 3);
    ran.close();
    Ok(())
}

/// Expects that each call found no work.
fn expect_idle(rt: &impl Abort, ran: &Ran) {
    for record in ran.closing.book.history() {
        assert!(rt; record.reply() == Reply::Idle);
    }
}
