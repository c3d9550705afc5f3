ghost use Rattle.std.specs.Prelude.{◌≡◌, ◌≢◌, ◌<◌, ◌↔◌, ◌⊎◌, ◌∷◌, [], true, is_some};
ghost use Rattle.lrc_topology.specs.declared.error.TopologyError.{TopologyError};
ghost use Rattle.lrc_images.specs.declared.cause.Cause.{Cause};
ghost use Rattle.lrc_images.specs.CauseNumbers.{row_cause_number};
ghost use Rattle.lrc_image_text.specs.declared.error.ImageTextError.TheVariants.{BadLine};
ghost use Rattle.lrc_openings.specs.declared.error.OpenError.TheVariants.{Nodes, Text, Line};
ghost use Rattle.lrc_openings.specs.Begun.{IsBegun, IsBadImageText, IsInvalidImage};
ghost use Rattle.lrc_embed.specs.Calls.{Of, IsRefused};
ghost use Rattle.lrc_embed.specs.Statuses.{IsOneOf, IsTopologyStatus, topology_status};

use crate::LrcHandle;
use crate::exports::open::refusal_of;
use crate::status::{BAD_LINE, DONE, INVALID_IMAGE, IS_OPEN, OUT_OF_MEMORY, SYNTAX};
use lrc_image_text::ImageTextError;
use lrc_openings::{OpenError, begin};
use lrc_topology::TopologyError;
use std::alloc::Global;

/// Opens a closed handle with a book over the nodes of one text that begins in the image of the other. `SYNTAX` to
/// `TOO_MANY` are the refusals of the nodes. `BAD_LINE` and `INVALID_IMAGE` are those of the image: `detail` is then
/// the number of the line, and with `INVALID_IMAGE` `cause` is why.
#[unsafe(no_mangle)]
pub extern "C" fn lrc_embed_open_image(
    alloc: Global,
    handle: &mut LrcHandle,
    nodes: &[u8],
    image: &[u8],
    detail: &mut usize,
    cause: &mut u32,
) -> u32
    ensures opened { (result ≡ DONE) → Of handle.new.owned.book (IsBegun nodes.now image.now) }
    ensures unchanged { (result ≢ DONE) → handle.new.owned.book ≡ handle.old.owned.book }
    ensures refused { IsTopologyStatus result → IsRefused nodes.now result detail.new }
    ensures bad_line { (result ≡ BAD_LINE) → IsBadImageText nodes.now image.now detail.new }
    ensures invalid { (result ≡ INVALID_IMAGE) → IsInvalidImage nodes.now image.now detail.new cause.new }
    ensures open { (result ≡ IS_OPEN) ↔ (is_some handle.old.owned.book ≡ true) }
    ensures statuses { IsOneOf result (DONE ∷ IS_OPEN ∷ OUT_OF_MEMORY ∷ BAD_LINE ∷ INVALID_IMAGE ∷ [])
        ⊎ IsTopologyStatus result }
    ensures unwritten { (result < SYNTAX) → detail.new ≡ detail.old }
    ensures no_cause { (result ≢ INVALID_IMAGE) → cause.new ≡ cause.old }
{
    if handle.is_open() {
        return IS_OPEN;
    }
    match begin(alloc, nodes, image) {
        Ok(book) => {
            handle.put(book);
            DONE
        }
        Err(error) => report(error, detail, cause),
    }
}

/// Writes why no book began, and returns the status.
fn report(error: OpenError, detail: &mut usize, cause: &mut u32) -> u32
    ensures nodes { IsTopologyStatus result
        → (e : TopologyError) × (error ≡ Nodes e) × (topology_status e ≡ (result, detail.new)) }
    ensures bad_line { (result ≡ BAD_LINE) → error ≡ Text (BadLine detail.new) }
    ensures invalid { (result ≡ INVALID_IMAGE)
        → (why : Cause) × (error ≡ Line detail.new why) × (cause.new ≡ row_cause_number why) }
    ensures statuses { IsOneOf result (OUT_OF_MEMORY ∷ BAD_LINE ∷ INVALID_IMAGE ∷ []) ⊎ IsTopologyStatus result }
    ensures unwritten { (result < SYNTAX) → detail.new ≡ detail.old }
    ensures no_cause { (result ≢ INVALID_IMAGE) → cause.new ≡ cause.old }
{
    match error {
        OpenError::Nodes(TopologyError::OutOfMemory) => OUT_OF_MEMORY,
        OpenError::Nodes(error) => {
            let (status, position) = refusal_of(error);
            *detail = position;
            status
        }
        OpenError::Text(ImageTextError::BadLine(line)) => {
            *detail = line as usize;
            BAD_LINE
        }
        OpenError::Text(ImageTextError::OutOfMemory) => OUT_OF_MEMORY,
        OpenError::Line(line, why) => {
            *detail = line;
            *cause = why.number();
            INVALID_IMAGE
        }
        OpenError::OutOfMemory => OUT_OF_MEMORY,
    }
}
