ghost use Rattle.std.specs.Prelude.{◌≡◌, map};
ghost use Rattle.lrc_sessions.specs.Counts.{shown};

use lrc_book::Book;
use lrc_code::SessionNo;
use std::marker::Model;

/// The number of calls of each session, by rising session number.
#[derive(Drop)]
pub struct Counts {
    pub(crate) items: Vec<(SessionNo, u64)>,
}

impl Model for Counts {
    ghost use Rattle.std.specs.Prelude.{ℕ, List, map};
    ghost use Rattle.lrc_sessions.specs.Counts.{shown};

    ghost Value = { List (ℕ × ℕ) };

    ghost view = { λ c. map shown c.items.items };
}

impl Counts {
    /// Returns the number of each session and of its calls.
    pub fn as_slice(&self) -> &[(SessionNo, u64)]
        ensures { map shown result.now ≡ self.now }
    {
        self.items.as_slice()
    }
}

/// What a manager returns at its end: its book, and the number of calls of each session.
#[derive(Drop)]
pub struct Closing {
    pub book: Book,
    pub made: Counts,
}
