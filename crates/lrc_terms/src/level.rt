ghost use Rattle.std.specs.Prelude.{◌≡◌};
ghost use Rattle.lrc_terms.specs.Levels.{is_whole};

/// How far a stripe is from loss.
#[derive(Clone, Copy, Debug, PartialEq, Eq)]
pub enum Level {
    /// No fragment is missing.
    Whole,
    /// Some fragments are missing, and the stripe survives this many further losses, 0 to 2, whichever fragments are
    /// lost.
    AtRisk(u8),
    /// The missing fragments are not recoverable, but the homeless ones are.
    Unavailable,
    /// The homeless fragments are not recoverable.
    Lost,
}

impl Level {
    /// Reports whether no fragment is missing.
    pub fn is_whole(self) -> bool
        ensures { result ≡ is_whole self }
    {
        matches!(self, Level::Whole)
    }
}
