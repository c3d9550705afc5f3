ghost use Rattle.std.specs.Prelude.{◌≡◌, ◌≢◌, ◌≤◌, ◌<◌, ◌↔◌, ◌⊎◌, ◌∷◌, [], None, true, is_some};
ghost use Rattle.lrc_embed.specs.Calls.{Of, IsNew, IsRefused};
ghost use Rattle.lrc_embed.specs.Statuses.{IsOneOf, IsTopologyStatus, topology_status};

use crate::LrcHandle;
use crate::status::{
    BAD_FIELD, DONE, DOUBLE_NODE, IS_OPEN, NO_NODES, NODE_OUT_OF_RANGE, OUT_OF_MEMORY, SYNTAX,
    TOO_MANY,
};
use lrc_book::Book;
use lrc_topology::{Topology, TopologyError};
use std::alloc::Global;

/// The version of the interface: of all functions, structs and numbers that the header declares.
const VERSION: u32 = 8;

/// The version of the interface, which rises with every change of the header's declarations. The header has it as a
/// constant, and a caller refuses a library of another one.
#[unsafe(no_mangle)]
pub extern "C" fn lrc_embed_version() -> u32
    ensures { result ≡ 8 }
{
    VERSION
}

/// The version of the rules: of what each command returns and changes.
const RULES: u32 = 1;

/// The version of the rules, which changes with what a command returns or changes. The same entries replay alike in all
/// libraries of one version, and may differ in those of another.
#[unsafe(no_mangle)]
pub extern "C" fn lrc_embed_rules_version() -> u32
    ensures { result ≡ 1 }
{
    RULES
}

/// Opens a closed handle with a book of the nodes of the text. `SYNTAX` to `TOO_MANY` are the refusals of the text;
/// `detail` is then the position or the node number.
#[unsafe(no_mangle)]
pub extern "C" fn lrc_embed_open(
    alloc: Global,
    handle: &mut LrcHandle,
    text: &[u8],
    detail: &mut usize,
) -> u32
    ensures opened { (result ≡ DONE) → Of handle.new.owned.book (IsNew text.now) }
    ensures unchanged { (result ≢ DONE) → handle.new.owned.book ≡ handle.old.owned.book }
    ensures refused { (SYNTAX ≤ result) → IsRefused text.now result detail.new }
    ensures open { (result ≡ IS_OPEN) ↔ (is_some handle.old.owned.book ≡ true) }
    ensures statuses { IsOneOf result (DONE ∷ IS_OPEN ∷ OUT_OF_MEMORY ∷ []) ⊎ IsTopologyStatus result }
    ensures unwritten { (result < SYNTAX) → detail.new ≡ detail.old }
{
    if handle.is_open() {
        return IS_OPEN;
    }
    let topology = match Topology::read(alloc, text) {
        Ok(topology) => topology,
        Err(TopologyError::OutOfMemory) => return OUT_OF_MEMORY,
        Err(error) => {
            let (status, position) = refusal_of(error);
            *detail = position;
            return status;
        }
    };
    match Book::boxed(alloc, topology) {
        Ok(book) => {
            handle.put(book);
            DONE
        }
        Err(_) => OUT_OF_MEMORY,
    }
}

/// The status of a refused topology, and its position or number.
pub(super) fn refusal_of(error: TopologyError) -> (u32, usize)
    ensures { result ≡ topology_status error }
{
    match error {
        TopologyError::Syntax => (SYNTAX, 0),
        TopologyError::NoNodes => (NO_NODES, 0),
        TopologyError::BadField(position) => (BAD_FIELD, position),
        TopologyError::OutOfRange(position) => (NODE_OUT_OF_RANGE, position),
        TopologyError::DoubleNode(number) => (DOUBLE_NODE, number.value as usize),
        TopologyError::TooMany => (TOO_MANY, 0),
        TopologyError::OutOfMemory => (OUT_OF_MEMORY, 0),
    }
}

/// Closes the handle and frees its book. A closed handle stays closed.
#[unsafe(no_mangle)]
pub extern "C" fn lrc_embed_close(alloc: Global, handle: &mut LrcHandle) -> u32
    ensures closed { handle.new.owned.book ≡ None }
    ensures status { result ≡ DONE }
{
    handle.close(alloc);
    DONE
}
