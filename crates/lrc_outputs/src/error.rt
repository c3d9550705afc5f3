use crate::output::Output;
use lrc_code::Fault;
use lrc_image_text::ImageTextError;
use lrc_openings::OpenError;
use lrc_refusals::InputRefusal;
use lrc_script::{BundleError, ScriptError};
use lrc_streams::RunFault;
use lrc_topology::TopologyError;
use std::alloc::Global;

/// Why a call gives no answer.
#[derive(Clone, Copy)]
pub(crate) enum OutputError {
    /// The input is refused.
    Refused(InputRefusal),
    /// The call was stopped.
    Fault(RunFault),
}

impl OutputError {
    ghost use Rattle.std.specs.Prelude.{◌≡◌, ◌⊎◌, IfOk, IfErr};
    ghost use Rattle.lrc_outputs.specs.OutputErrors.{IsLineFor};
    ghost use Rattle.lrc_outputs.specs.declared.error.OutputError.TheVariants as error;
    ghost use Rattle.lrc_streams.specs.declared.streams.RunFault.TheVariants as fault;

    /// The output that says why the input is refused; a fault stays one.
    pub(crate) fn into_output(self, alloc: Global) -> Result<Output, RunFault>
        ensures output { IfOk result (λ o. IsLineFor self o.text.items o.status) }
        ensures err { IfErr result (λ e. (e ≡ fault.OutOfMemory) ⊎ (self ≡ error.Fault e)) }
    {
        match self {
            OutputError::Refused(refusal) => Output::refused(alloc, refusal),
            OutputError::Fault(fault) => Err(fault),
        }
    }
}

impl From<RunFault> for OutputError {
    ghost use Rattle.std.specs.Prelude.{◌≡◌};
    ghost use Rattle.lrc_outputs.specs.declared.error.OutputError.TheVariants as error;

    ghost from_gives = { λ fault e. e ≡ error.Fault fault };

    fn from(fault: RunFault) -> OutputError {
        OutputError::Fault(fault)
    }
}

impl From<Fault> for OutputError {
    ghost use Rattle.std.specs.Prelude.{◌≡◌};
    ghost use Rattle.lrc_streams.specs.Faults.{run_fault};
    ghost use Rattle.lrc_outputs.specs.declared.error.OutputError.TheVariants as error;

    ghost from_gives = { λ fault e. e ≡ error.Fault (run_fault fault) };

    fn from(fault: Fault) -> OutputError {
        OutputError::Fault(fault.into())
    }
}

impl From<BundleError> for OutputError {
    ghost use Rattle.std.specs.Prelude.{◌≡◌};
    ghost use Rattle.lrc_outputs.specs.OutputErrors.{of_bundle};

    ghost from_gives = { λ error e. e ≡ of_bundle error };

    fn from(error: BundleError) -> OutputError {
        match error {
            BundleError::TooManyScripts => OutputError::Refused(InputRefusal::TooManyScripts),
            BundleError::OutOfMemory => OutputError::Fault(RunFault::OutOfMemory),
        }
    }
}

impl From<TopologyError> for OutputError {
    ghost use Rattle.std.specs.Prelude.{◌≡◌};
    ghost use Rattle.lrc_outputs.specs.OutputErrors.{of_topology};

    ghost from_gives = { λ error e. e ≡ of_topology error };

    fn from(error: TopologyError) -> OutputError {
        match error {
            TopologyError::OutOfMemory => OutputError::Fault(RunFault::OutOfMemory),
            _ => OutputError::Refused(InputRefusal::Topology(error)),
        }
    }
}

impl From<ScriptError> for OutputError {
    ghost use Rattle.std.specs.Prelude.{◌≡◌};
    ghost use Rattle.lrc_outputs.specs.OutputErrors.{of_script};

    ghost from_gives = { λ error e. e ≡ of_script error };

    fn from(error: ScriptError) -> OutputError {
        match error {
            ScriptError::Bad { line, cause } => OutputError::Refused(InputRefusal::Line(
                line, cause,
            )),
            ScriptError::OutOfMemory => OutputError::Fault(RunFault::OutOfMemory),
        }
    }
}

impl From<ImageTextError> for OutputError {
    ghost use Rattle.std.specs.Prelude.{◌≡◌};
    ghost use Rattle.lrc_outputs.specs.OutputErrors.{of_image_text};

    ghost from_gives = { λ error e. e ≡ of_image_text error };

    fn from(error: ImageTextError) -> OutputError {
        match error {
            ImageTextError::BadLine(line) => OutputError::Refused(InputRefusal::ImageLine(line)),
            ImageTextError::OutOfMemory => OutputError::Fault(RunFault::OutOfMemory),
        }
    }
}

impl From<OpenError> for OutputError {
    ghost use Rattle.std.specs.Prelude.{◌≡◌};
    ghost use Rattle.lrc_outputs.specs.OutputErrors.{of_opening};

    ghost from_gives = { λ error e. e ≡ of_opening error };

    fn from(error: OpenError) -> OutputError {
        match error {
            OpenError::Nodes(error) => error.into(),
            OpenError::Text(error) => error.into(),
            OpenError::Line(line, cause) => {
                OutputError::Refused(InputRefusal::Row(line as u128, cause))
            }
            OpenError::OutOfMemory => OutputError::Fault(RunFault::OutOfMemory),
        }
    }
}
