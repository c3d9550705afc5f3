//! How calls are tried: the marks around a call, and the commands before it.

use crate::stop::Stop;
use lrc_book::{Command, Level};
use lrc_code::{NodeNo, SessionNo, StripeNo};
use lrc_script::parse_script;
use std::alloc::Global;
use std::fmt::Debug;
use std::sync::Wait;

/// The handles of the runtime that every case needs.
pub(crate) trait Host: AllocGlobal + Print + Wait {}

impl<R: AllocGlobal + Print + Wait> Host for R {}

/// The call that is tried on a value.
#[derive(Clone, Copy)]
pub(crate) enum Call {
    /// A call that makes a command.
    Command,
    Decide,
    Prepare,
    Risk,
    /// `level_of` and `load_of`.
    Looks,
    Meet,
    Finish,
}

/// A call, the commands before it, and its own command. A look has no command and ignores it.
#[derive(Drop)]
pub(crate) struct Trial {
    pub(crate) call: Call,
    pub(crate) before: Vec<Command>,
    pub(crate) last: Command,
}

impl Trial {
    /// Reads the script of a trial, whose last command is that of the call.
    pub(crate) fn read(alloc: Global, call: Call, text: &str) -> Result<Trial, Stop> {
        let mut before = parse_script(alloc, text.as_bytes(), 1)?;
        let last = before.pop().ok_or(Stop::Failed)?;
        Ok(Trial { call, before, last })
    }
}

/// The session that makes the calls.
pub(crate) const FIRST: SessionNo = SessionNo { value: 1 };

/// The stripe that most scripts place.
pub(crate) const ONE: StripeNo = StripeNo { value: 1 };

/// A node that holds a fragment of it.
pub(crate) const NODE: NodeNo = NodeNo { value: 0 };

/// The stripes at risk, and the number of entries at that time.
pub(crate) type Risk = (Vec<(StripeNo, Level)>, u64);

/// The level of a stripe and the load of a node.
pub(crate) type Looked = (Option<Level>, Option<u32>);

/// Prints the mark after which allocations can fail. If it can't be written, the reader of the output misses it.
pub(crate) fn begin(rt: &impl Print) {
    let _ = rt.write_all(b"begin\n");
}

/// Prints the mark after which they can't, the result of the call, and whether an allocation failed.
pub(crate) fn end<T: Debug, E: Debug>(
    rt: &impl Print,
    answer: &Result<T, E>,
) -> Result<bool, Stop> {
    rt.write_all(b"end\n")?;
    println!(rt; "{answer:?}")?;
    Ok(answer.is_err())
}
