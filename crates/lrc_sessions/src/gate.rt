ghost use Rattle.std.specs.Prelude.{ℕ, ◌≤◌, IfOk, IfErr};

use lrc_board::BATCH_LIMIT;
use lrc_code::SessionNo;

/// The error by which a gate stops a script.
#[derive(Clone, Copy, Debug, PartialEq, Eq)]
pub struct GateError;

/// A hook that a run calls before and after each call of a session. In each run the calls of a session are counted from
/// 1.
///
/// A run makes the calls of a session in batches, each under one lock: `before` runs for each call of a batch before
/// the first of them is made, and `after` for each after the last was made.
pub trait Gate {
    // the most calls of a batch
    ghost most: { ℕ };

    // whether the gate may stop a script
    ghost may_stop: { Type 0 };

    // what is known of call `n` of a session after `before` returned Ok
    ghost lets: { ℕ → ℕ → Type 0 };

    // what is known of call `n` of a session after `after` returned
    ghost tells: { ℕ → ℕ → Type 0 };

    /// Returns the most calls of a batch, from 1 to 256. A run asks once.
    fn batch_limit(&self) -> usize
        ensures { (1 ≤ result) × (result ≤ most) × (result ≤ 256) };

    /// Runs before call `n` of a session. An error stops the session's script, and neither this call nor a later one is
    /// made.
    fn before(&self, session: SessionNo, n: u64) -> Result<(), GateError>
        ensures through { IfOk result (λ _. lets session.value n) }
        ensures stopped { IfErr result (λ _. may_stop) };

    /// Runs after call `n` of a session was made.
    fn after(&self, session: SessionNo, n: u64)
        ensures { tells session.value n };
}

/// The gate that neither stops nor delays a call.
#[derive(Clone, Copy, Debug)]
pub struct OpenGate;

impl Gate for OpenGate {
    ghost use Rattle.std.specs.Prelude.{⊤};

    ghost most = { 256 };

    ghost may_stop = { ⊥ };

    ghost lets = { λ _ _. ⊤ };

    ghost tells = { λ _ _. ⊤ };

    fn batch_limit(&self) -> usize {
        BATCH_LIMIT
    }

    fn before(&self, _session: SessionNo, _n: u64) -> Result<(), GateError> {
        Ok(())
    }

    fn after(&self, _session: SessionNo, _n: u64) {}
}
