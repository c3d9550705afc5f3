//! Sources of input and sinks of output, with what is known of their bytes.

ghost use Rattle.std.specs.Prelude.{◌≡◌, ◌+◌, ◌≤◌, ◌⊎◌, ℕ, List, length, Option, Bool, true, false, ◌||◌, is_ok, is_err, IfOk, IfErr, OnOk, OnErr};
ghost use Rattle.std.specs.Io.{ReadsAtMost, WritesAtMost};
ghost use Rattle.std.specs.Io.KnownBytes.{ReadConsumes, WriteAppends, Appends, Keeps};
ghost use Rattle.lrc_streams.specs.Streams.{is_failed_write, is_read_fault, ConsumesAtMost, AppendsPart};
ghost use Rattle.lrc_streams.specs.Reads.{IsReadUpTo};
ghost use Rattle.lrc_streams.specs.declared.streams.RunFault.TheVariants as fault;

use lrc_code::Fault;
use std::alloc::{AllocError, Global};
use std::io;
use std::io::{Read, Write};
use thiserror::Error;

/// Why a run stopped.
#[derive(Clone, Copy, Debug, PartialEq, Eq, Error)]
pub enum RunFault {
    #[error("fault 1")]
    OutOfMemory = 1,
    #[error("fault 2")]
    HistoryFull = 2,
    #[error("fault 3")]
    Read = 3,
    #[error("fault 4")]
    Write = 4,
    #[error("fault 5")]
    NoReader = 5,
}

impl From<AllocError> for RunFault {
    ghost use Rattle.std.specs.Prelude.{◌≡◌};
    ghost use Rattle.lrc_streams.specs.declared.streams.RunFault.TheVariants.{OutOfMemory};

    ghost from_gives = { λ _ e. e ≡ OutOfMemory };

    fn from(_error: AllocError) -> RunFault {
        RunFault::OutOfMemory
    }
}

impl From<Fault> for RunFault {
    ghost use Rattle.std.specs.Prelude.{◌≡◌};
    ghost use Rattle.lrc_streams.specs.Faults.{run_fault};

    ghost from_gives = { λ fault e. e ≡ run_fault fault };

    fn from(fault: Fault) -> RunFault {
        match fault {
            Fault::OutOfMemory => RunFault::OutOfMemory,
            Fault::HistoryFull => RunFault::HistoryFull,
        }
    }
}

/// A reader that says whether one of its calls has failed.
pub trait Source {
    // The bytes that are left, where they are known.
    ghost left: { Self → Option (List ℕ) };

    // A call has failed.
    ghost has_failed: { Self → Bool };

    /// Reads into the buffer, and returns the number of bytes that were read, 0 only at the end.
    fn read(&mut self, buf: &mut [u8]) -> io::Result<usize>
        ensures bound { ReadsAtMost result buf.new }
        ensures bytes { ReadConsumes (left self.old) (left self.new) result buf.new }
        ensures failed { has_failed self.new ≡ (has_failed self.old || is_err result) };

    /// Whether a call has failed.
    fn failed(&self) -> bool
        ensures { result ≡ has_failed self.now };
}

/// A writer that says whether one of its calls has failed, or has taken no byte of some. Its contract also says whether it
/// was flushed.
pub trait Sink {
    // The bytes that were written, where they are known.
    ghost written: { Self → Option (List ℕ) };

    // A call has failed, or has taken no byte of some.
    ghost has_failed: { Self → Bool };

    // A flush has succeeded since the last write.
    ghost is_flushed: { Self → Bool };

    /// Writes from the beginning of the buffer, and returns the number of bytes that were written.
    fn write(&mut self, buf: &[u8]) -> io::Result<usize>
        ensures bound { WritesAtMost result buf.now }
        ensures bytes { WriteAppends (written self.old) (written self.new) result buf.now }
        ensures failed { has_failed self.new ≡ (has_failed self.old || is_failed_write result buf.now) }
        ensures unflushed { is_flushed self.new ≡ false };

    /// Passes on what was written.
    fn flush(&mut self) -> io::Result<()>
        ensures bytes { Keeps (written self.old) (written self.new) }
        ensures failed { has_failed self.new ≡ (has_failed self.old || is_err result) }
        ensures flushed { is_flushed self.new ≡ (is_flushed self.old || is_ok result) };

    /// Whether a call has failed, or has taken no byte of some.
    fn failed(&self) -> bool
        ensures { result ≡ has_failed self.now };
}

/// A reader or a writer of std, and what is known of its calls.
#[derive(Drop)]
pub struct Plain<T> {
    pub inner: T,
    /// One of them has failed, or has taken no byte of some.
    pub failed: bool,
    /// A flush has succeeded since the last write.
    pub flushed: bool,
}

impl<T> Plain<T> {
    /// Wraps a reader or a writer that has not failed and was not flushed.
    pub fn new(inner: T) -> Self
        ensures inner { result.inner ≡ inner }
        ensures fresh { result.failed ≡ false }
        ensures unflushed { result.flushed ≡ false }
    {
        Plain {
            inner,
            failed: false,
            flushed: false,
        }
    }
}

impl<R: Read> Source for Plain<R> {
    ghost left = { λ p. R.remaining p.inner };

    ghost has_failed = { λ p. p.failed };

    fn read(&mut self, buf: &mut [u8]) -> io::Result<usize> {
        let given = self.inner.read(buf);
        if given.is_err() {
            self.failed = true;
        }
        given
    }

    fn failed(&self) -> bool {
        self.failed
    }
}

impl<W: Write> Sink for Plain<W> {
    ghost written = { λ p. W.contents p.inner };

    ghost has_failed = { λ p. p.failed };

    ghost is_flushed = { λ p. p.flushed };

    fn write(&mut self, buf: &[u8]) -> io::Result<usize> {
        self.flushed = false;
        let taken = self.inner.write(buf);
        if matches!(taken, Ok(0)) && !buf.is_empty() || taken.is_err() {
            self.failed = true;
        }
        taken
    }

    fn flush(&mut self) -> io::Result<()> {
        let flushed = self.inner.flush();
        if flushed.is_ok() {
            self.flushed = true;
        } else {
            self.failed = true;
        }
        flushed
    }

    fn failed(&self) -> bool {
        self.failed
    }
}

/// Reads to the end, or until it has read one byte more than `limit`.
pub fn read_all<R: Source>(alloc: Global, source: &mut R, limit: usize) -> Result<Vec<u8>, RunFault>
    ensures read { IfOk result (λ v. IsReadUpTo limit (R.left source.old) (R.left source.new) v.items) }
    ensures few { IfOk result (λ v. length v.items ≤ limit + 1) }
    ensures most { ConsumesAtMost (limit + 1) (R.left source.old) (R.left source.new) }
    ensures err { IfErr result (λ e. (e ≡ fault.OutOfMemory) ⊎ (e ≡ fault.Read)) }
    ensures failed { R.has_failed source.new ≡ (R.has_failed source.old || is_read_fault result) }
{
    let mut bytes = Vec::new(alloc);
    let mut buf = [0u8; 65536];
    while bytes.len() <= limit {
        let room = (limit - bytes.len()).min(buf.len() - 1) + 1;
        let part = &mut buf[..room];
        let count = match source.read(part) {
            Ok(count) => count,
            Err(_) => return Err(RunFault::Read),
        };
        if count == 0 {
            return Ok(bytes);
        }
        if bytes.extend_from_slice(&part[..count]).is_err() {
            return Err(RunFault::OutOfMemory);
        }
    }
    Ok(bytes)
}

/// Writes all of the bytes, and flushes after the last write.
pub fn write_all<W: Sink>(sink: &mut W, bytes: &[u8]) -> Result<(), RunFault>
    ensures written { OnOk result (Appends (W.written sink.old) (W.written sink.new) bytes.now) }
    ensures part { OnErr result (AppendsPart (W.written sink.old) (W.written sink.new) bytes.now) }
    ensures flushed { OnOk result (W.is_flushed sink.new ≡ true) }
    ensures err { IfErr result (λ e. e ≡ fault.Write) }
    ensures failed { W.has_failed sink.new ≡ (W.has_failed sink.old || is_err result) }
{
    let mut at = 0;
    while at < bytes.len() {
        match sink.write(&bytes[at..]) {
            Ok(0) => return Err(RunFault::Write),
            Ok(count) => at += count,
            Err(_) => return Err(RunFault::Write),
        }
    }
    match sink.flush() {
        Ok(()) => Ok(()),
        Err(_) => Err(RunFault::Write),
    }
}
