ghost use Rattle.std.specs.Prelude.{◌≡◌, option_map};
ghost use Rattle.lrc_rules.specs.States.{mode_shown};
ghost use Rattle.lrc_book.specs.Books.{state_of};
ghost use Rattle.lrc_book.specs.Looks.{down_shown};
ghost use Rattle.lrc_records.specs.Shown.{flag, encoded_mode};

use lrc_book::Book;
use lrc_code::NodeNo;
use lrc_records::{LrcMode, flag};

/// The mode of a node, if there is such a node.
pub fn mode_of(book: &Book, node: NodeNo) -> Option<LrcMode>
    ensures { result ≡ option_map encoded_mode (mode_shown book.now.nodes (state_of book.now) node) }
{
    Some(LrcMode::of(book.mode(node)?))
}

/// 1 if a node is down, else 0, if there is such a node.
pub fn down_of(book: &Book, node: NodeNo) -> Option<u8>
    ensures { result ≡ option_map flag (down_shown book.now.nodes (state_of book.now) node) }
{
    Some(flag(book.is_down(node)?))
}
