use std::error::Error;

/// Why the program ends early.
#[derive(Clone, Copy)]
pub(crate) enum Stop {
    /// The command line is wrong.
    Usage,
    /// A clock can't be read.
    NoClock,
    /// A call that is not tried, a read or a write failed.
    Failed,
}

impl Stop {
    /// Returns the line on standard error.
    pub(crate) fn text(self) -> &'static str {
        match self {
            Stop::Usage => {
                "usage: probes growth CALL TEXT, or probes looks READERS LOOKS CALLS (at most 7 readers, and 1000000 calls)"
            }
            Stop::NoClock => "probes: there is no clock",
            Stop::Failed => "probes: a call, a read or a write failed",
        }
    }

    /// Returns the exit status.
    pub(crate) fn status(self) -> u8 {
        match self {
            Stop::Usage => 2,
            _ => 3,
        }
    }
}

impl<E: Error> From<E> for Stop {
    fn from(_error: E) -> Stop {
        Stop::Failed
    }
}
