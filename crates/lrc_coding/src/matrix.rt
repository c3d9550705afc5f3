//! The generator matrix of a code.

ghost use Rattle.std.specs.Prelude.{◌≡◌, ◌++◌, string_bytes, OnOk};
ghost use Rattle.lrc_coding.specs.Told.{byte_field, bytes_line, matrix_text};

use lrc_code::{Code, Fragment};
use lrc_field::{data_count, row};
use std::alloc::AllocError;

/// Adds the generator matrix of the code: a line for each fragment, in rising order, with the coefficient of each data
/// fragment as two hexadecimal digits, and a space between.
///
/// # Errors
///
/// Only for want of memory; then a beginning of the matrix may have been added.
pub fn push_matrix(out: &mut String, code: Code) -> Result<(), AllocError>
    ensures { OnOk result (string_bytes out.new ≡ string_bytes out.old ++ matrix_text code) }
{
    let columns = usize::from(data_count(code));
    for fragment in Fragment::all() {
        if let Some(row) = row(code, fragment) {
            push_line(out, &row[..columns])?;
        }
    }
    Ok(())
}

/// Adds a line of these bytes.
fn push_line(out: &mut String, bytes: &[u8]) -> Result<(), AllocError>
    ensures { OnOk result (string_bytes out.new ≡ string_bytes out.old ++ bytes_line bytes.now) }
{
    let mut mark = "";
    for byte in bytes {
        push_byte(out, mark, *byte)?;
        mark = " ";
    }
    out.push_str("\n")
}

/// Adds a byte behind a mark.
fn push_byte(out: &mut String, mark: &str, byte: u8) -> Result<(), AllocError>
    ensures { OnOk result (string_bytes out.new ≡ string_bytes out.old ++ (mark.now ++ byte_field byte)) }
{
    write!(out, "{mark}{byte:02x}")
}
