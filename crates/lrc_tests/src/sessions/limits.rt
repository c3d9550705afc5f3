//! The number of sessions of a manager.

ghost use Rattle.std.specs.Prelude.{◌≤◌};

use super::nodes;
use crate::close::close_parts;
use lrc_sessions::{OpenError, Parts};
use std::alloc::Global;
use std::process::Abort;
use std::test::Fail;

#[test]
fn a_manager_has_one_to_eight_sessions(rt: HostRuntime) -> Result<(), Fail> {
    expect_counts(&rt, rt.alloc(), 1_000_000)?;
    expect_counts(&rt, rt.alloc(), 3)?;
    expect_counts(&rt, rt.alloc(), 0)
}

/// Expects that other counts are refused, whatever the limit of the history.
fn expect_counts(rt: &impl Abort, alloc: Global, limit: u32) -> Result<(), Fail>
    requires limit { limit ≤ 1000000 }
{
    let bad = Some(OpenError::BadCount);
    for (count, wanted) in [(0, bad), (1, None), (8, None), (9, bad), (255, bad)] {
        assert!(rt; refusal(alloc, count, limit)? == wanted);
    }
    Ok(())
}

/// Returns why there are no parts of a manager with `count` sessions, or `None` if there are.
fn refusal(alloc: Global, count: u8, limit: u32) -> Result<Option<OpenError>, Fail>
    requires limit { limit ≤ 1000000 }
{
    match Parts::with_limit(alloc, nodes(alloc)?, count, limit) {
        Ok(parts) => {
            close_parts(parts);
            Ok(None)
        }
        Err(error) => Ok(Some(error)),
    }
}
