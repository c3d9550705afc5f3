//! The words for why something is refused.

ghost use Rattle.std.specs.Prelude.{◌≡◌, option_map};
ghost use Rattle.lrc_embed.specs.Names.{IsName};
ghost use Rattle.lrc_embed.specs.Printed.{line_cause_words, image_cause_words, nodes_words};

use crate::exports::names::put_name;
use crate::status::{BAD_FIELD, DOUBLE_NODE, NO_NODES, NODE_OUT_OF_RANGE, SYNTAX, TOO_MANY};
use lrc_code::NodeNo;
use lrc_images::Cause as RowCause;
use lrc_refusals::InputRefusal;
use lrc_script::Cause as LineCause;
use lrc_topology::TopologyError;

/// The words for why a line of a script is bad. They are written as `lrc_embed_status_name` says.
#[unsafe(no_mangle)]
pub extern "C" fn lrc_embed_line_words(cause: u32, text: &mut [u8], length: &mut usize) -> u32
    ensures { IsName (line_cause_words cause) result text.old text.new length.old length.new }
{
    put_name(line_cause_words(cause), text, length)
}

/// The words for why the nodes or the lines before it do not allow a line of an image. They are written as
/// `lrc_embed_status_name` says.
#[unsafe(no_mangle)]
pub extern "C" fn lrc_embed_cause_words(cause: u32, text: &mut [u8], length: &mut usize) -> u32
    ensures { IsName (image_cause_words cause) result text.old text.new length.old length.new }
{
    put_name(image_cause_words(cause), text, length)
}

/// The words for why a text lists no nodes, by the status that says so. They are written as `lrc_embed_status_name`
/// says.
#[unsafe(no_mangle)]
pub extern "C" fn lrc_embed_nodes_words(status: u32, text: &mut [u8], length: &mut usize) -> u32
    ensures { IsName (nodes_words status) result text.old text.new length.old length.new }
{
    put_name(nodes_words(status), text, length)
}

fn line_cause_words(cause: u32) -> Option<&'static str>
    ensures { option_map (λ words. words.now) result ≡ line_cause_words cause }
{
    let cause = match cause {
        1 => LineCause::UnknownWord,
        2 => LineCause::WordCount,
        3 => LineCause::NotANumber,
        4 => LineCause::OutOfRange,
        5 => LineCause::TooLong,
        _ => return None,
    };
    Some(InputRefusal::Line(0, cause).words())
}

fn image_cause_words(cause: u32) -> Option<&'static str>
    ensures { option_map (λ words. words.now) result ≡ image_cause_words cause }
{
    let cause = match cause {
        1 => RowCause::UnknownDomain,
        2 => RowCause::TooManyEntries,
        3 => RowCause::TooManyTicks,
        4 => RowCause::OutOfOrder,
        5 => RowCause::SaysNothing,
        6 => RowCause::UnknownNode,
        7 => RowCause::GoneAndDown,
        8 => RowCause::UnknownFragment,
        9 => RowCause::UnknownSlot,
        10 => RowCause::NodeGone,
        11 => RowCause::SeatTaken,
        12 => RowCause::NotLawful,
        13 => RowCause::TooManyGrants,
        14 => RowCause::UnknownStripe,
        15 => RowCause::NeverGranted,
        16 => RowCause::WrongExpiry,
        _ => return None,
    };
    Some(InputRefusal::Row(0, cause).words())
}

fn nodes_words(status: u32) -> Option<&'static str>
    ensures { option_map (λ words. words.now) result ≡ nodes_words status }
{
    let error = match status {
        SYNTAX => TopologyError::Syntax,
        NO_NODES => TopologyError::NoNodes,
        BAD_FIELD => TopologyError::BadField(0),
        NODE_OUT_OF_RANGE => TopologyError::OutOfRange(0),
        DOUBLE_NODE => TopologyError::DoubleNode(NodeNo { value: 0 }),
        TOO_MANY => TopologyError::TooMany,
        _ => return None,
    };
    Some(InputRefusal::Topology(error).words())
}
