use crate::line::Line;
use logbook::{Gain, Pen as Permit, Plain, Play};
use lrc_book::Record;

/// The gain of a step whose caller trades nothing.
pub(crate) struct NoGain;

impl Gain<Line, u64> for NoGain {
    ghost use base.Fml.{ftrue};

    ghost after = { λ names about answer. ftrue };
}

/// The step that makes a new permit.
pub(crate) struct MakePermit;

impl Play<Line, u64> for MakePermit {
    ghost use Rattle.lrc_board.specs.Lines.{MakesPermit};

    ghost then = { MakesPermit };
}

/// The step that finds that a permit has written nothing.
pub(crate) struct CheckUnused;

impl Play<Line, u64> for CheckUnused {
    ghost use Rattle.lrc_board.specs.Lines.{FindsUnused};

    ghost then = { FindsUnused };
}

impl Plain<(), Line, u64> for CheckUnused {
    ghost use Rattle.std.specs.Prelude.{None};
    ghost use Rattle.lrc_board.specs.Lines.{no_line};

    ghost ask = { λ _. no_line };

    ghost state = { λ _. None };
}

/// The step that appends a line.
pub(crate) struct AppendLine;

impl Play<Line, u64> for AppendLine {
    ghost use Rattle.lrc_board.specs.Lines.{AppendsLine};

    ghost then = { AppendsLine };
}

/// The line to append: its entries, and the permit for the line after it.
#[derive(Drop)]
pub(crate) struct NextLine<'a> {
    pub(crate) entries: &'a [Record],
    pub(crate) next: Permit,
}

impl<'a> Plain<NextLine<'a>, Line, u64> for AppendLine {
    ghost use Rattle.std.specs.Prelude.{None};

    ghost ask = { λ c. record { entries = c.entries.now; by = 0; next = c.next.nib.key } };

    ghost state = { λ c. None };
}
