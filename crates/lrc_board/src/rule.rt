use crate::board::{Board, NoOperation};
use crate::naming::ViewNaming;
use crossbeam_utils::rule::{Outcome, Protocol};
use left_right::reader::Reader;
use left_right::writer::Writer;
use std::marker::PhantomData;

/// The rule of `left_right` for the published view: each board that a viewer can see is the board of its entries.
pub struct ViewRule<N: ViewNaming> {
    of: PhantomData<N>,
}

impl<N: ViewNaming> Protocol<Board, ()> for ViewRule<N> {
    ghost use Rattle.lrc_board.specs.Views.{IsBoard};

    ghost holds = { λ x _. IsBoard N.log N.start N.topology x };

    ghost first = { tt };
}

/// The outcome of a step that reads or publishes a board: it is the board of its entries.
pub(crate) struct Sees<N: ViewNaming> {
    of: PhantomData<N>,
}

impl<N: ViewNaming> Outcome<Board, ()> for Sees<N> {
    ghost use Rattle.lrc_board.specs.Views.{IsBoard};

    ghost then = { λ _ _ y _. IsBoard N.log N.start N.topology y };
}

/// The reader of a viewer.
pub(crate) type BoardReader<N> = Reader<Board, (), ViewRule<N>>;

/// The writer of a publisher.
pub(crate) type BoardWriter<N> = Writer<Board, NoOperation, (), ViewRule<N>>;
