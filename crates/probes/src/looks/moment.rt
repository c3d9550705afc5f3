use std::rt::Clock;
use std::time::{CpuClock, Duration};

/// The wall clock and the processor time of the current thread at one moment.
#[derive(Clone, Copy)]
pub(crate) struct Moment {
    wall: Duration,
    processor: Duration,
}

impl Moment {
    /// Reads both clocks. Returns `None` if one can't be read.
    pub(crate) fn now<R: Clock + CpuClock>(rt: &R) -> Option<Moment> {
        Some(Moment {
            wall: rt.monotonic().ok()?,
            processor: rt.thread_cpu_time().ok()?,
        })
    }
}

/// The moments at which a thread began and ended a task.
#[derive(Clone, Copy)]
pub(crate) struct Span {
    begun: Moment,
    ended: Moment,
}

impl Span {
    pub(crate) fn from(begun: Option<Moment>, ended: Option<Moment>) -> Option<Span> {
        Some(Span {
            begun: begun?,
            ended: ended?,
        })
    }

    /// Returns the nanoseconds by the wall clock from `start` to the begin of the task.
    pub(crate) fn begun(self, start: Moment) -> u128 {
        self.begun.wall.saturating_sub(start.wall).as_nanos()
    }

    /// Returns the nanoseconds by the wall clock from `start` to the end of the task.
    pub(crate) fn ended(self, start: Moment) -> u128 {
        self.ended.wall.saturating_sub(start.wall).as_nanos()
    }

    /// Returns the nanoseconds of processor time that the task took.
    pub(crate) fn processor(self) -> u128 {
        self.ended
            .processor
            .saturating_sub(self.begun.processor)
            .as_nanos()
    }
}
