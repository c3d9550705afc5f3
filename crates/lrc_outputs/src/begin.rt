//! The checks of a sequel, which are made before its first command, and the book that begins where it says.

ghost use Rattle.std.specs.Prelude.{◌≡◌, ◌≤◌, nat_eq, count_by, take, drop, length, None, Ok, IfOk, IfErr};
ghost use Rattle.lrc_code.specs.declared.fault.Fault.TheVariants as book;
ghost use Rattle.lrc_script.specs.Scripts.{lines_of};
ghost use Rattle.lrc_script.specs.Cuts.{IsCut};
ghost use Rattle.lrc_outputs.specs.Limits.{sequel_limit};
ghost use Rattle.lrc_outputs.specs.OutputErrors.{IsRefusedWith};
ghost use Rattle.lrc_outputs.specs.Sequels.{has_image, bytes_to_end, image_size, bundle_part};
ghost use Rattle.lrc_outputs.specs.Sequels.{ReadsImage, start_in, IsTold};
ghost use Rattle.lrc_outputs.specs.Starts.{IsBadImage, IsRefusedRow, IsBegunHere, NotGoing, IsGoodSequel};

use crate::error::OutputError;
use crate::judging::judge_behind;
use crate::limits::SEQUEL_LIMIT;
use lrc_book::{Book, Command, Image};
use lrc_code::Fault;
use lrc_image_text::{ImageTextError, read_image};
use lrc_refusals::InputRefusal;
use lrc_topology::Topology;
use memchr::memchr;
use std::alloc::Global;

/// The book that a sequel begins, and what it is to run.
#[derive(Drop)]
pub(crate) struct Begun {
    pub(crate) book: Box<Book>,
    /// The commands of the only script, if there is one.
    pub(crate) scripts: Vec<Vec<Command>>,
}

/// Checks a sequel, and begins its book.
pub(crate) fn begin(alloc: Global, sequel: &[u8]) -> Result<Begun, OutputError>
    ensures begun { IfOk result (λ b. IsGoodSequel sequel.now b.book.value b.scripts.items) }
    ensures refused { IfErr result (IsRefusedWith (IsTold NotGoing sequel.now)) }
{
    if sequel.len() > SEQUEL_LIMIT {
        return Err(OutputError::Refused(InputRefusal::TooLong));
    }
    let size = image_size(sequel);
    let text = &sequel[..size];
    let image = read_start(alloc, text)?;
    let accepted = judge_behind(alloc, &sequel[size..], 1, count_lines(text))?;
    let book = begin_over(alloc, accepted.topology, image)?;
    let scripts = accepted.scripts;
    Ok(Begun { book, scripts })
}

/// Whether a sequel begins with an image: no topology begins with `image ` and a digit.
pub(crate) fn has_image(sequel: &[u8]) -> bool
    ensures { result ≡ has_image sequel.now }
{
    sequel.len() > 6 && sequel.starts_with(b"image ") && sequel[6].is_ascii_digit()
}

/// The bundle of a sequel, which stands behind its image.
pub(crate) fn bundle_of(sequel: &[u8]) -> &[u8]
    requires { length sequel.now ≤ sequel_limit }
    ensures { result.now ≡ bundle_part sequel.now }
{
    &sequel[image_size(sequel)..]
}

/// The number of bytes of the image's text.
fn image_size(sequel: &[u8]) -> usize
    requires { length sequel.now ≤ sequel_limit }
    ensures { result ≡ image_size sequel.now }
{
    if !has_image(sequel) {
        return 0;
    }
    bytes_to_end(sequel).min(sequel.len())
}

/// The number of bytes up to the first line `end`, or of all lines, each with an LF.
fn bytes_to_end(text: &[u8]) -> usize
    requires { length text.now ≤ sequel_limit }
    ensures { result ≡ bytes_to_end (lines_of text.now) }
{
    let mut bytes = 0;
    let mut rest = text;
    loop {
        let (line, behind) = cut_line(rest);
        bytes += line.len() + 1;
        if line == b"end".as_slice() {
            return bytes;
        }
        let Some(next) = behind else {
            return bytes;
        };
        rest = next;
    }
}

/// The first line of a text without its end, and the text after its end; `None` if the line has no end.
fn cut_line(text: &[u8]) -> (&[u8], Option<&[u8]>)
    ensures { IsCut 10 text.now result.0.now result.1 }
{
    match memchr(b'\n', text) {
        Some(end) => (&text[..end], Some(&text[end + 1..])),
        None => (text, None),
    }
}

fn count_lines(text: &[u8]) -> u64
    ensures { result ≡ count_by (λ b. nat_eq b 10) text.now }
{
    text.iter().filter(|byte| **byte == b'\n').count() as u64
}

/// Reads the text of the image; `None` if it is empty.
fn read_start(alloc: Global, text: &[u8]) -> Result<Option<Image>, ImageTextError>
    ensures read { IfOk result (λ image. ReadsImage text.now (Ok image)) }
    ensures refused { IfErr result (IsBadImage text.now) }
{
    if text.is_empty() {
        return Ok(None);
    }
    let image = read_image(alloc, text)?;
    Ok(Some(image))
}

/// Begins a book over these nodes in the image, or an empty one where there is none.
fn begin_over(
    alloc: Global,
    topology: Topology,
    image: Option<Image>,
) -> Result<Box<Book>, OutputError>
    ensures begun { IfOk result (λ b. IsBegunHere topology (start_in image) b.value) }
    ensures refused { IfErr result (IsRefusedWith (IsRefusedRow topology (start_in image))) }
{
    match image {
        Some(image) => Ok(lrc_openings::begin_over(alloc, topology, image)?),
        None => Ok(empty_book(alloc, topology)?),
    }
}

/// An empty book over these nodes, in a box.
fn empty_book(alloc: Global, topology: Topology) -> Result<Box<Book>, Fault>
    ensures begun { IfOk result (λ b. IsBegunHere topology (start_in None) b.value) }
    ensures err { IfErr result (λ e. e ≡ book.OutOfMemory) }
{
    let book = Book::new(alloc, topology)?;
    Ok(Box::new(alloc, book)?)
}
