use logbook::{Rule, Seen};
use lrc_book::Entry;
use std::marker::Model;

/// The entries of a line. They are ghost data, as the line is.
pub struct Entries {
    entries: Vec<Entry>,
}

impl Model for Entries {
    ghost use Rattle.std.specs.Prelude.{List};
    ghost use Rattle.lrc_rules.specs.declared.entry.Entry.{Entry};

    ghost Value = { List Entry };

    ghost view = { λ e. e.entries.items };
}

/// A line of a log: the entries of a batch, the number of the permit that wrote it, and that of the permit for the next
/// line. It is ghost data: no value of it is made.
pub struct Line {
    pub entries: Entries,
    pub by: u64,
    pub next: u64,
}

/// The rule of a log: each permit writes one line.
pub struct LogRule;

impl Rule<Line, u64> for LogRule {
    ghost use Rattle.std.specs.Prelude.{[]};
    ghost use base.Fml.{ftrue};
    ghost use Rattle.lrc_board.specs.Lines.{IsKept};

    ghost holds = { λ cells log. IsKept cells log };

    ghost first = { [] };

    ghost hinted = { λ n log. Unit {0} };

    ghost shows = { λ log. [] };

    ghost keeps = { λ names log. ftrue };

    ghost moves = { λ ask before after answer. Unit {0} };
}

/// A prefix of the log that was seen. It has no bytes.
pub type LogPrefix = Seen<Line, u64, LogRule>;
