ghost use Rattle.std.specs.Prelude.{◌≡◌, ◌++◌, codes, decimal, string_bytes, OnOk};
ghost use Rattle.lrc_images.specs.CauseNumbers.{row_cause_number};
ghost use Rattle.lrc_refusals.specs.Refusals.{topology_line, cause_number, refusal_line};
ghost use Rattle.lrc_refusals.specs.declared.refusal.InputRefusal.TheVariants as refusal;

use lrc_images::Cause as RowCause;
use lrc_script::Cause as LineCause;
use lrc_topology::TopologyError;
use std::alloc::AllocError;

/// Adds the line for a refused topology. `OutOfMemory` is no refusal and has no line.
pub(crate) fn push_topology(out: &mut String, error: TopologyError) -> Result<(), AllocError>
    ensures { OnOk result (string_bytes out.new ≡ string_bytes out.old ++ topology_line error) }
{
    match error {
        TopologyError::Syntax => out.push_str("topology 1\n"),
        TopologyError::NoNodes => out.push_str("topology 2\n"),
        TopologyError::BadField(position) => write!(out, "topology 3 {position}\n"),
        TopologyError::OutOfRange(position) => write!(out, "topology 4 {position}\n"),
        TopologyError::DoubleNode(node) => {
            let number = node.value;
            write!(out, "topology 5 {number}\n")
        }
        TopologyError::TooMany => out.push_str("topology 6\n"),
        TopologyError::OutOfMemory => Ok(()),
    }
}

/// Adds the line for a bad line of a script.
pub(crate) fn push_bad_line(out: &mut String, line: u64, cause: LineCause) -> Result<(), AllocError>
    ensures { OnOk result (string_bytes out.new ≡ string_bytes out.old ++ refusal_line (refusal.Line line cause)) }
{
    let number = cause as u8;
    write!(out, "line {line} cause {number}\n")
}

/// Adds the line for a bad line of an image's text.
pub(crate) fn push_image_line(out: &mut String, line: u64) -> Result<(), AllocError>
    ensures { OnOk result (string_bytes out.new ≡ string_bytes out.old ++ refusal_line (refusal.ImageLine line)) }
{
    write!(out, "image {line}\n")
}

/// Adds the line for a wrong row of an image.
pub(crate) fn push_row(out: &mut String, line: u128, cause: RowCause) -> Result<(), AllocError>
    ensures { OnOk result (string_bytes out.new ≡ string_bytes out.old ++ refusal_line (refusal.Row line cause)) }
{
    let number = cause.number();
    write!(out, "image {line} cause {number}\n")
}
