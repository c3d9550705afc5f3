//! The texts of errors, and their numbers.

use crate::expect::{expect_number, expect_text};
use lrc_board::LookError;
use lrc_code::{Fault, Fragment, NodeNo};
use lrc_coder::CodingError;
use lrc_script::{BundleError, Cause, ScriptError};
use lrc_sessions::OpenError;
use lrc_streams::RunFault;
use lrc_topology::TopologyError;
use std::fmt::Display;
use std::process::Abort;

/// Expects what each error prints.
fn expect_texts<E: Display>(rt: &(impl AllocGlobal + Abort), rows: &[(E, &str)]) {
    for (error, wanted) in rows {
        expect_text(rt, error, wanted);
    }
}

fn expect_numbers(rt: &impl Abort, rows: &[(u64, u64)]) {
    for (number, wanted) in rows {
        expect_number(rt, *number, *wanted);
    }
}

#[test]
fn errors_of_inputs_say_what_to_mend(rt: HostRuntime) {
    let of_nodes = [
        (
            TopologyError::Syntax,
            "the topology is not a TOML 1.1 text in UTF-8",
        ),
        (
            TopologyError::NoNodes,
            "the topology has no nodes: `node` must be an array of one table for each node",
        ),
        (
            TopologyError::BadField(3),
            "entry 3 of `node` (counted from 0) must be a table with whole numbers at `number`, `fault`, `upgrade` and `slots`",
        ),
        (
            TopologyError::OutOfRange(3),
            "entry 3 of `node` (counted from 0) is out of range: `number` is 0 to 65535, `fault` and `upgrade` are 0 to 255, `slots` is 1 to 256",
        ),
        (
            TopologyError::DoubleNode(NodeNo { value: 7 }),
            "two entries of `node` have the number 7",
        ),
        (
            TopologyError::TooMany,
            "the topology has more than 512 nodes",
        ),
        (TopologyError::OutOfMemory, "out of memory"),
    ];
    expect_texts(&rt, &of_nodes);
    let of_buffers = [
        (
            CodingError::Count,
            "the buffers are not as many as the fragments of the code",
        ),
        (
            CodingError::NoFragment(Fragment { value: 13 }),
            "the code has no fragment 13",
        ),
        (
            CodingError::Length(Fragment { value: 13 }),
            "the buffer of fragment 13 has another length",
        ),
    ];
    expect_texts(&rt, &of_buffers);
    let line = 104;
    let cause = Cause::NotANumber;
    let of_scripts = [
        (
            ScriptError::Bad { line, cause },
            "line 104 is bad: NotANumber",
        ),
        (ScriptError::OutOfMemory, "out of memory"),
    ];
    expect_texts(&rt, &of_scripts);
    let of_bundles = [
        (BundleError::TooManyScripts, "too many scripts"),
        (BundleError::OutOfMemory, "out of memory"),
    ];
    expect_texts(&rt, &of_bundles);
}

#[test]
fn faults_have_their_numbers_and_texts(rt: HostRuntime) {
    let of_calls = [
        (Fault::OutOfMemory, "out of memory"),
        (Fault::HistoryFull, "the history is full"),
    ];
    expect_texts(&rt, &of_calls);
    let of_looks = [
        (LookError::OutOfMemory, "out of memory"),
        (LookError::NoView, "there is no view"),
    ];
    expect_texts(&rt, &of_looks);
    let of_managers = [
        (OpenError::OutOfMemory, "out of memory"),
        (OpenError::NoReader, "there is no reader"),
        (OpenError::BadCount, "a manager has 1 to 8 sessions"),
    ];
    expect_texts(&rt, &of_managers);
    let of_runs = [
        (RunFault::OutOfMemory, "fault 1"),
        (RunFault::HistoryFull, "fault 2"),
        (RunFault::Read, "fault 3"),
        (RunFault::Write, "fault 4"),
        (RunFault::NoReader, "fault 5"),
    ];
    expect_texts(&rt, &of_runs);
    let numbers = [
        (Fault::OutOfMemory as u64, 1),
        (Fault::HistoryFull as u64, 2),
        (LookError::OutOfMemory as u64, 1),
        (LookError::NoView as u64, 3),
        (OpenError::OutOfMemory as u64, 1),
        (OpenError::NoReader as u64, 2),
        (OpenError::BadCount as u64, 3),
    ];
    expect_numbers(&rt, &numbers);
}
