ghost use Rattle.std.specs.Prelude.{◌≡◌, ◌+◌, ◌<◌, ◌≤◌, [], length, map, vec_capacity, IfOk, IfErr};
ghost use Rattle.lrc_code.specs.declared.fault.Fault.TheVariants as fault;
ghost use Rattle.lrc_sessions.specs.Buffers.{HaveRoomFor};

use crate::naming::Naming;
use crate::session::Session;
use crate::track::{Batches, Track};
use crate::worker::Worker;
use lrc_board::Batch;
use lrc_book::Command;
use lrc_code::Fault;
use std::alloc::Global;

/// All memory that a run allocates, except the growth of the book.
#[derive(Drop)]
pub(crate) struct RunBuffers<N: Naming> {
    batches: Vec<Vec<Batch>>,
    pub(crate) workers: Vec<Worker<N>>,
    tracks: Vec<Track>,
}

impl<N: Naming> RunBuffers<N> {
    /// Allocates the memory for these scripts, with at most `most` calls in each batch.
    ///
    /// # Errors
    ///
    /// Only `Fault::OutOfMemory`.
    pub(crate) fn new(
        alloc: Global,
        scripts: &[Vec<Command>],
        most: usize,
    ) -> Result<RunBuffers<N>, Fault>
        requires { 0 < most }
        ensures batches { IfOk result (λ r. HaveRoomFor most scripts.now r.batches.items) }
        ensures workers { IfOk result (λ r. (r.workers.items ≡ []) × (length scripts.now ≤ vec_capacity r.workers)) }
        ensures tracks { IfOk result (λ r. (r.tracks.items ≡ []) × (length scripts.now ≤ vec_capacity r.tracks)) }
        ensures err { IfErr result (λ e. e ≡ fault.OutOfMemory) }
    {
        Ok(RunBuffers {
            batches: batch_buffers(alloc, scripts, most)?,
            workers: Vec::with_capacity(alloc, scripts.len())?,
            tracks: Vec::with_capacity(alloc, scripts.len())?,
        })
    }

    /// Makes a worker of each session, in order.
    pub(crate) fn assign_sessions(
        self,
        sessions: &mut Vec<Session<N>>,
    ) -> (Vec<Worker<N>>, Vec<Track>)
        requires same { length sessions.old.items ≡ length self.batches.items }
        requires workers { (self.workers.items ≡ []) × (length self.batches.items ≤ vec_capacity self.workers) }
        ensures sessions { map (λ w. w.session) result.0.items ≡ sessions.old.items }
        ensures batches { map (λ w. w.batches) result.0.items ≡ self.batches.items }
        ensures emptied { (sessions.new.items ≡ []) × (vec_capacity sessions.new ≡ vec_capacity sessions.old) }
        ensures tracks { result.1 ≡ self.tracks }
    {
        let RunBuffers {
            batches: buffers,
            mut workers,
            tracks,
        } = self;
        for batches in buffers {
            let session = sessions.remove(0);
            workers.push_reserved(Worker {
                session,
                batches,
                stopped: None,
            });
        }
        (workers, tracks)
    }
}

/// Allocates for each script an empty list of batches, with room for all of its calls, `most` in each.
fn batch_buffers(
    alloc: Global,
    scripts: &[Vec<Command>],
    most: usize,
) -> Result<Vec<Vec<Batch>>, Fault>
    requires { 0 < most }
    ensures ok { IfOk result (λ v. HaveRoomFor most scripts.now v.items) }
    ensures err { IfErr result (λ e. e ≡ fault.OutOfMemory) }
{
    let mut buffers = Vec::with_capacity(alloc, scripts.len())?;
    for script in scripts {
        buffers.push_reserved(Vec::with_capacity(alloc, script.len().div_ceil(most))?);
    }
    Ok(buffers)
}

/// Collects the sessions and the tracks of the workers, in order.
pub(crate) fn collect_results<N: Naming>(
    workers: Vec<Worker<N>>,
    sessions: &mut Vec<Session<N>>,
    tracks: &mut Vec<Track>,
)
    requires sessions { (sessions.old.items ≡ []) × (length workers.items ≤ vec_capacity sessions.old) }
    requires tracks { (tracks.old.items ≡ []) × (length workers.items ≤ vec_capacity tracks.old) }
    ensures sessions { sessions.new.items ≡ map (λ w. w.session) workers.items }
    ensures tracks { tracks.new.items
        ≡ map (λ w. record { batches = w.batches.items; stopped = w.stopped }) workers.items }
{
    for worker in workers {
        let Worker {
            session,
            batches,
            stopped,
        } = worker;
        sessions.push_reserved(session);
        tracks.push_reserved(Track {
            batches: Batches { items: batches },
            stopped,
        });
    }
}
