//! The rule of the shared word, and the step that adds a call.

use crate::feed::FedCall;
use logbook::{Gain, Plain, Play, Rule, Seen, Word};

/// The rule: the word has the number of calls.
pub struct FeedLaw;

impl Rule<FedCall, u64> for FeedLaw {
    ghost use Rattle.std.specs.Prelude.{[]};
    ghost use base.Fml.{ftrue};
    ghost use Rattle.lrc_feed.specs.Rules.{IsCounted};

    ghost holds = { λ cells log. IsCounted cells log };

    ghost first = { [] };

    ghost hinted = { λ n log. Unit {0} };

    ghost shows = { λ log. [] };

    ghost keeps = { λ names log. ftrue };

    ghost moves = { λ ask before after answer. Unit {0} };
}

/// The gain of a step whose caller trades nothing.
pub(crate) struct NoGain;

impl Gain<FedCall, u64> for NoGain {
    ghost use base.Fml.{ftrue};

    ghost after = { λ names about answer. ftrue };
}

/// The step that adds a call.
pub(crate) struct Append;

impl Play<FedCall, u64> for Append {
    ghost use Rattle.lrc_feed.specs.Rules.{Appends};

    ghost then = { Appends };
}

impl Plain<FedCall, FedCall, u64> for Append {
    ghost use Rattle.std.specs.Prelude.{None};

    ghost ask = { λ call. call };

    ghost state = { λ call. None };
}

/// The word that has the number of calls.
pub(crate) type Head = Word<FedCall, u64, FeedLaw>;

/// The first calls of a feed, as they were seen. It has no bytes.
pub(crate) type FedCalls = Seen<FedCall, u64, FeedLaw>;
