ghost use Rattle.std.specs.Prelude.{◌≡◌};
ghost use Rattle.lrc_streams.specs.declared.streams.RunFault.{RunFault};
ghost use Rattle.lrcman.specs.declared.stop.Stop.TheVariants as stop;

use clap::Error;
use clap::error::ErrorKind;
use lrc_tool::RunFault;
use std::alloc::{AllocError, AllocFailed};
use std::io;

/// Why the program ends without the status of its command: the line on standard error.
#[derive(Clone, Copy, Debug, thiserror::Error)]
pub(crate) enum Stop {
    /// The command line is refused.
    #[error("usage:
  lrcman run < BUNDLE               run the scripts; print replies, stripes at risk and nodes
  lrcman check < SEQUEL             check image, topology and scripts, and run nothing
  lrcman resume < SEQUEL            run a script from an image on
  lrcman image < SEQUEL             print the image after it
  lrcman show WHAT < SEQUEL         print a table of the state after it: status, health, stripes, fragments, nodes, leases, work,
                                    capacity, domains fault or domains upgrade
  lrcman may-stop WHO.. < SEQUEL    may these nodes stop at once? WHO is NODE.., fault F.. or upgrade U.., or several of them
  lrcman may-lose WHO.. < SEQUEL    the same if they were lost
  lrcman recover MASK               can these losses of a wide stripe be recovered? (four hexadecimal digits)
  lrcman recover6 MASK              the same of a narrow stripe
  lrcman recipe MASK F              how is fragment F of a wide stripe rebuilt after these losses? (sources and coefficients)
  lrcman recipe6 MASK F             the same of a narrow stripe
  lrcman matrix                     print the generator matrix of wide stripes, in hexadecimal
  lrcman matrix6                    the same of narrow stripes
status: 0 done, 1 a line of a script is bad, 2 input or command line refused, 3 fault, 4 not safe
manual page: lrcman(1); a bundle without an image is a sequel too")]
    Usage,
    #[error("lrcman: {0}")]
    Fault(RunFault),
}

impl Stop {
    /// The exit status.
    pub(crate) fn status(self) -> u8
        ensures usage { self ≡ stop.Usage → result ≡ 2 }
        ensures fault { (fault : RunFault) → self ≡ stop.Fault fault → result ≡ 3 }
    {
        match self {
            Stop::Usage => 2,
            Stop::Fault(_) => 3,
        }
    }
}

impl From<RunFault> for Stop {
    ghost use Rattle.std.specs.Prelude.{◌≡◌};
    ghost use Rattle.lrcman.specs.declared.stop.Stop.TheVariants as stop;

    ghost from_gives = { λ fault e. e ≡ stop.Fault fault };

    fn from(fault: RunFault) -> Stop {
        Stop::Fault(fault)
    }
}

impl From<AllocError> for Stop {
    ghost use Rattle.std.specs.Prelude.{◌≡◌};
    ghost use Rattle.lrcman.specs.declared.stop.Stop.TheVariants as stop;
    ghost use Rattle.lrc_streams.specs.declared.streams.RunFault.TheVariants.{OutOfMemory};

    ghost from_gives = { λ _ e. e ≡ stop.Fault OutOfMemory };

    fn from(_error: AllocError) -> Stop {
        Stop::Fault(RunFault::OutOfMemory)
    }
}

impl<T: Drop> From<AllocFailed<T>> for Stop {
    ghost use Rattle.std.specs.Prelude.{◌≡◌};
    ghost use Rattle.lrcman.specs.declared.stop.Stop.TheVariants as stop;
    ghost use Rattle.lrc_streams.specs.declared.streams.RunFault.TheVariants.{OutOfMemory};

    ghost from_gives = { λ _ e. e ≡ stop.Fault OutOfMemory };

    fn from(_error: AllocFailed<T>) -> Stop {
        Stop::Fault(RunFault::OutOfMemory)
    }
}

impl From<io::Error> for Stop {
    ghost use Rattle.std.specs.Prelude.{◌≡◌, ◌≢◌};
    ghost use Rattle.lrcman.specs.declared.stop.Stop.TheVariants as stop;
    ghost use Rattle.lrc_streams.specs.declared.streams.RunFault.TheVariants.{OutOfMemory};
    ghost use Rattle.std.specs.IoError.{error_kind};
    ghost use Rattle.std.specs.declared.io.ErrorKind.TheVariants as kind;

    ghost from_gives = { λ error e. (error_kind error ≡ kind.OutOfMemory → e ≡ stop.Fault OutOfMemory)
        × (error_kind error ≢ kind.OutOfMemory → e ≡ stop.Usage) };

    /// Why the words of the command line were not given.
    fn from(error: io::Error) -> Stop {
        match error.kind() {
            io::ErrorKind::OutOfMemory => Stop::Fault(RunFault::OutOfMemory),
            // A word is no UTF-8.
            _ => Stop::Usage,
        }
    }
}

impl From<Error> for Stop {
    ghost use Rattle.std.specs.Prelude.{◌≡◌, ◌≢◌};
    ghost use Rattle.lrcman.specs.declared.stop.Stop.TheVariants as stop;
    ghost use Rattle.lrc_streams.specs.declared.streams.RunFault.TheVariants.{OutOfMemory};
    ghost use Rattle.clap.specs.Values.{kind_of};
    ghost use Rattle.clap.specs.declared.error.kind.ErrorKind.TheVariants as kind;

    ghost from_gives = { λ error e. (kind_of error ≡ kind.OutOfMemory → e ≡ stop.Fault OutOfMemory)
        × (kind_of error ≢ kind.OutOfMemory → e ≡ stop.Usage) };

    /// Why the words of the command line were refused.
    fn from(error: Error) -> Stop {
        match error.kind() {
            ErrorKind::OutOfMemory => Stop::Fault(RunFault::OutOfMemory),
            // A request for help too.
            _ => Stop::Usage,
        }
    }
}
