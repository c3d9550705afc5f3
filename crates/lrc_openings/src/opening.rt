ghost use Rattle.std.specs.Prelude.{◌≡◌, ◌<◌, ◌^◌, IfOk, IfErr};
ghost use Rattle.lrc_images.specs.Cuts.{row_count};
ghost use Rattle.lrc_image_text.specs.Texts.{row_line};
ghost use Rattle.lrc_openings.specs.Begun.{IsBegun, IsBegunOver};
ghost use Rattle.lrc_openings.specs.Unopened.{IsUnopened, IsUnbegun};

use crate::OpenError;
use lrc_book::{BeginError, Book, Cause, Image};
use lrc_code::UpgradeNo;
use lrc_image_text::{read_image, row_line};
use lrc_topology::Topology;
use std::alloc::Global;

/// Begins a book over the nodes of one text in the image of the other.
pub fn begin(alloc: Global, nodes: &[u8], text: &[u8]) -> Result<Box<Book>, OpenError>
    ensures begun { IfOk result (λ b. IsBegun nodes.now text.now b.value) }
    ensures refused { IfErr result (IsUnopened nodes.now text.now) }
{
    let topology = Topology::read(alloc, nodes)?;
    let image = read_image(alloc, text)?;
    begin_over(alloc, topology, image)
}

/// Begins a book over nodes in an image that was read.
///
/// # Errors
///
/// `Line` and `OutOfMemory`.
pub fn begin_over(alloc: Global, topology: Topology, image: Image) -> Result<Box<Book>, OpenError>
    ensures begun { IfOk result (λ b. IsBegunOver topology image b.value) }
    ensures refused { IfErr result (IsUnbegun topology image) }
{
    let upgrading = upgrading_in(&image);
    match Book::begin_boxed(alloc, topology, image) {
        Ok(book) => Ok(book),
        Err(BeginError::Refused(position, cause)) => {
            Err(OpenError::Line(line_of(upgrading, position, cause), cause))
        }
        Err(BeginError::OutOfMemory) => Err(OpenError::OutOfMemory),
    }
}

/// The upgrade domain that is upgrading in an image. The rows of an image in memory are few.
fn upgrading_in(image: &Image) -> Option<UpgradeNo>
    requires room { row_count image.now < 2 ^ 63 }
    ensures value { result ≡ image.now.upgrading }
    ensures room { row_count image.now < 2 ^ 63 }
{
    image.upgrading
}

/// The line at the position of a cause.
fn line_of(upgrading: Option<UpgradeNo>, position: usize, cause: Cause) -> usize
    requires room { position < 2 ^ 63 }
    ensures { result ≡ row_line upgrading position cause }
{
    row_line(upgrading, position, cause) as usize
}
