//! Streams of which a call failed before: they are read and written like fresh ones.

use lrc_streams::{Plain, Sink, Source, read_all, write_all};
use std::alloc::Global;
use std::test::Fail;

const BYTES: &[u8] = b"some bytes";

#[test]
fn a_source_that_failed_before_is_read_to_its_end(rt: HostRuntime) -> Result<(), Fail> {
    let mut source = Plain::new(BYTES);
    source.failed = true;
    let read = read_all(rt.alloc(), &mut source, BYTES.len())?;
    assert!(rt; read.as_slice() == BYTES && source.failed());
    Ok(())
}

#[test]
fn a_sink_that_failed_before_takes_all_bytes(rt: HostRuntime) -> Result<(), Fail> {
    let mut sink = Plain::new(Vec::new(rt.alloc()));
    sink.failed = true;
    write_all(&mut sink, BYTES)?;
    assert!(rt; sink.inner.as_slice() == BYTES && sink.failed() && sink.flushed);
    Ok(())
}
