ghost use Rattle.std.specs.Prelude.{◌≡◌, ◌≤◌, [], vec_capacity, IfOk};

use crate::looks::task::Done;
use crate::looks::worker::Worker;
use lrc_sessions::{Naming, Session};
use std::alloc::{AllocError, Global};

/// All memory that a run allocates, except that of its manager.
#[derive(Drop)]
pub(crate) struct RunBuffers<N: Naming> {
    pub(crate) workers: Vec<Worker<N>>,
    pub(crate) sessions: Vec<Session<N>>,
    pub(crate) done: Vec<Done>,
}

impl<N: Naming> RunBuffers<N> {
    /// Allocates the memory for `count` sessions.
    pub(crate) fn new(alloc: Global, count: u8) -> Result<RunBuffers<N>, AllocError>
        ensures workers { IfOk result (λ r. (r.workers.items ≡ []) × (count ≤ vec_capacity r.workers)) }
        ensures sessions { IfOk result (λ r. (r.sessions.items ≡ []) × (count ≤ vec_capacity r.sessions)) }
        ensures done { IfOk result (λ r. (r.done.items ≡ []) × (count ≤ vec_capacity r.done)) }
    {
        let count = usize::from(count);
        Ok(RunBuffers {
            done: Vec::with_capacity(alloc, count)?,
            sessions: Vec::with_capacity(alloc, count)?,
            workers: Vec::with_capacity(alloc, count)?,
        })
    }
}
