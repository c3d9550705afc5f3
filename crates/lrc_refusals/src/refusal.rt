ghost use Rattle.std.specs.Prelude.{◌≡◌, ◌++◌, string_bytes, OnOk};
ghost use Rattle.lrc_refusals.specs.Refusals.{refusal_line, input_refusal_words, input_refusal_text};

use crate::lines::{push_bad_line, push_image_line, push_row, push_topology};
use crate::words::{line_words, row_words, topology_words};
use lrc_groups::Named;
use lrc_images::Cause as RowCause;
use lrc_script::Cause as LineCause;
use lrc_topology::TopologyError;
use std::alloc::AllocError;

/// Why an input is refused. Lines are counted from 1.
#[derive(Clone, Copy)]
pub enum InputRefusal {
    /// The input has too many bytes.
    TooLong,
    /// The input has too many scripts.
    TooManyScripts,
    /// The topology is refused.
    Topology(TopologyError),
    /// The line of this number is bad.
    Line(u64, LineCause),
    /// The line of this number can't stand there in an image.
    ImageLine(u64),
    /// The row of an image in the line of this number is wrong.
    Row(u128, RowCause),
    /// A number of the state is at its end, so the state has no image.
    FullImage,
    /// No node has this number, or is in this domain.
    Lacking(Named),
}

impl InputRefusal {
    /// Adds the line for it.
    ///
    /// # Errors
    ///
    /// Only for want of memory; then a beginning of the line may have been added.
    pub fn push_line(self, out: &mut String) -> Result<(), AllocError>
        ensures { OnOk result (string_bytes out.new ≡ string_bytes out.old ++ refusal_line self) }
    {
        match self {
            InputRefusal::TooLong => out.push_str("bundle 1\n"),
            InputRefusal::TooManyScripts => out.push_str("bundle 2\n"),
            InputRefusal::Topology(error) => push_topology(out, error),
            InputRefusal::Line(line, cause) => push_bad_line(out, line, cause),
            InputRefusal::ImageLine(line) => push_image_line(out, line),
            InputRefusal::Row(line, cause) => push_row(out, line, cause),
            InputRefusal::FullImage => out.push_str("image full\n"),
            InputRefusal::Lacking(named) => named.push_line(out),
        }
    }

    /// Returns why, in words.
    pub fn words(self) -> &'static str
        ensures { result.now ≡ input_refusal_words self }
    {
        match self {
            InputRefusal::TooLong => "the input has too many bytes",
            InputRefusal::TooManyScripts => "the input has too many scripts",
            InputRefusal::Topology(error) => topology_words(error),
            InputRefusal::Line(_, cause) => line_words(cause),
            InputRefusal::ImageLine(_) => "this line can't stand here in an image",
            InputRefusal::Row(_, cause) => row_words(cause),
            InputRefusal::FullImage => "a number of the state is at its end",
            InputRefusal::Lacking(named) => named.words(),
        }
    }

    /// Adds the words, and the line behind them.
    ///
    /// # Errors
    ///
    /// Only for want of memory; then a beginning may have been added.
    pub fn push_text(self, out: &mut String) -> Result<(), AllocError>
        ensures { OnOk result (string_bytes out.new ≡ string_bytes out.old ++ input_refusal_text self) }
    {
        let words = self.words();
        write!(out, "lrcman: {words}: ")?;
        self.push_line(out)
    }
}
