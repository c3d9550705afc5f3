ghost use Rattle.std.specs.Prelude.{◌≡◌};
ghost use Rattle.lrc_refusals.specs.Refusals.{line_words, topology_words, row_words};

use lrc_images::Cause as RowCause;
use lrc_script::Cause as LineCause;
use lrc_topology::TopologyError;

/// Why a line of a script is bad.
pub(crate) fn line_words(cause: LineCause) -> &'static str
    ensures { result.now ≡ line_words cause }
{
    match cause {
        LineCause::UnknownWord => "the first word is not a command",
        LineCause::WordCount => "the command takes another number of words",
        LineCause::NotANumber => "an argument is not a number",
        LineCause::OutOfRange => "a number is out of its range",
        LineCause::TooLong => "the line has more than 1024 bytes",
    }
}

/// Why a topology is refused.
pub(crate) fn topology_words(error: TopologyError) -> &'static str
    ensures { result.now ≡ topology_words error }
{
    match error {
        TopologyError::Syntax => "the topology is not TOML in UTF-8",
        TopologyError::NoNodes => "the topology has no nodes",
        TopologyError::BadField(_) =>
            "a number of the node at this position is missing, or not a whole number",
        TopologyError::OutOfRange(_) => "a number of the node at this position is out of its range",
        TopologyError::DoubleNode(_) => "the node of this number is there twice",
        TopologyError::TooMany => "the topology has more than 512 nodes",
        TopologyError::OutOfMemory => "there is no memory",
    }
}

/// Why a row of an image is refused.
pub(crate) fn row_words(cause: RowCause) -> &'static str
    ensures { result.now ≡ row_words cause }
{
    match cause {
        RowCause::UnknownDomain => "no node is in the upgrading domain",
        RowCause::TooManyEntries => "the number of entries is too high",
        RowCause::TooManyTicks => "the clock is too high",
        RowCause::OutOfOrder => "the row does not come after the earlier ones of its kind",
        RowCause::SaysNothing => "each count of the row is 0",
        RowCause::UnknownNode => "the topology has no such node",
        RowCause::GoneAndDown => "the node is gone and down",
        RowCause::UnknownFragment => "the code of the stripe lacks the fragment",
        RowCause::UnknownSlot => "the node has no such slot",
        RowCause::NodeGone => "the node of the seat is gone",
        RowCause::SeatTaken => "the seat is held already",
        RowCause::NotLawful => "another fragment of the stripe rules the node out",
        RowCause::TooManyGrants => "a count of grants is too high",
        RowCause::UnknownStripe => "the image has no such stripe",
        RowCause::NeverGranted => "no lease of the fragment was granted",
        RowCause::WrongExpiry =>
            "the lease ended already, or ends later than three ticks after the clock",
    }
}
