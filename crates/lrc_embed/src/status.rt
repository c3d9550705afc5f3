//! What an export returns. The header has these names with `LRC_` before them.

/// The call was done.
pub const DONE: u32 = 0;
/// The handle is closed.
pub const IS_CLOSED: u32 = 1;
/// The handle to be opened is open.
pub const IS_OPEN: u32 = 2;
/// A number of a command, session, stripe or fragment is out of its range.
pub const OUT_OF_RANGE: u32 = 3;
/// There is no such stripe, lease, node or entry.
pub const UNKNOWN: u32 = 4;
/// The history is full.
pub const FULL: u32 = 5;
/// Memory was refused.
pub const OUT_OF_MEMORY: u32 = 6;
/// The buffer has no room for all rows.
pub const SHORT: u32 = 7;
/// The reply is not that of the entry.
pub const DIFFERENT: u32 = 8;
/// The history has grown otherwise since the caller last saw it.
pub const MOVED: u32 = 9;
/// The entries at this place are forgotten, or were never in this book.
pub const FORGOTTEN: u32 = 10;
/// What is not missing does not determine the fragment.
pub const UNDETERMINED: u32 = 11;
/// The buffers are not as many as the fragments of the code.
pub const MISCOUNTED: u32 = 12;
/// The buffers are not all of one length.
pub const UNEVEN: u32 = 13;
/// The text is not TOML 1.1 in UTF-8.
pub const SYNTAX: u32 = 16;
/// The text lists no nodes.
pub const NO_NODES: u32 = 17;
/// The entry of `node` at this position lacks a whole number at one of its four keys.
pub const BAD_FIELD: u32 = 18;
/// The entry of `node` at this position has a number out of its range.
pub const NODE_OUT_OF_RANGE: u32 = 19;
/// The text has this node number twice.
pub const DOUBLE_NODE: u32 = 20;
/// The text lists more than 512 nodes.
pub const TOO_MANY: u32 = 21;
/// The line of this number is not one that may come there in the text of an image.
pub const BAD_LINE: u32 = 22;
/// The nodes, or the lines before it, do not allow the line of this number.
pub const INVALID_IMAGE: u32 = 23;
