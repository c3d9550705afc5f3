//! Tables after a text: rows of fields with commas between them.

ghost use Rattle.std.specs.Prelude.{◌≡◌, ◌++◌, map, IfOk, IfErr, OnOk};
ghost use Rattle.csv.specs.Writing.{default_writer, row_text};
ghost use Rattle.lrc_code.specs.declared.fault.Fault.TheVariants as fault;
ghost use Rattle.lrc_text.specs.Writers.{text_in, IsBetweenRows};

use csv::{Writer, WriterBuilder};
use lrc_code::Fault;

/// A text to which rows are added.
pub(crate) type Table = Writer<Vec<u8>>;

/// Begins a table after this text.
pub(crate) fn begin_table(text: Vec<u8>) -> Table
    ensures text { text_in result ≡ text.items }
    ensures between { IsBetweenRows result }
{
    WriterBuilder::new().from_writer(text)
}

/// Adds a row of these fields. A caller gives all rows of a table the same number of fields: `csv` refuses another number,
/// and that too is told as `OutOfMemory`.
pub(crate) fn push_row(table: &mut Table, fields: &[&[u8]]) -> Result<(), Fault>
    requires { IsBetweenRows table.old }
    ensures row { OnOk result (text_in table.new ≡ text_in table.old ++ row_text default_writer (map (λ f. f.now) fields.now)) }
    ensures between { OnOk result (IsBetweenRows table.new) }
    ensures err { IfErr result (λ e. e ≡ fault.OutOfMemory) }
{
    match table.write_fields(fields) {
        Ok(()) => Ok(()),
        Err(_) => Err(Fault::OutOfMemory),
    }
}

/// Ends a table, and returns the text with its rows.
pub(crate) fn end_table(table: Table) -> Result<Vec<u8>, Fault>
    ensures text { IfOk result (λ v. v.items ≡ text_in table) }
    ensures err { IfErr result (λ e. e ≡ fault.OutOfMemory) }
{
    match table.into_inner() {
        Ok(text) => Ok(text),
        Err(_) => Err(Fault::OutOfMemory),
    }
}
