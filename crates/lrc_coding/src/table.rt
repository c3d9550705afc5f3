//! The table of a recipe.

ghost use Rattle.std.specs.Prelude.{◌≡◌, ◌++◌, string_bytes, OnOk};
ghost use Rattle.lrc_coding.specs.Told.{coefficient_in, recipe_text, source_row};

use lrc_code::Fragment;
use lrc_field::Recipe;
use std::alloc::AllocError;

/// Adds the table of a recipe: a row for each fragment that is read, in rising order, with its coefficient.
///
/// # Errors
///
/// Only for want of memory; then a beginning of the table may have been added.
pub fn push_recipe(out: &mut String, recipe: &Recipe) -> Result<(), AllocError>
    ensures { OnOk result (string_bytes out.new ≡ string_bytes out.old ++ recipe_text (coefficient_in recipe.now)) }
{
    out.push_str("source,coefficient\n")?;
    for source in Fragment::all() {
        let coefficient = recipe.coefficient(source);
        if coefficient != 0 {
            push_source(out, source, coefficient)?;
        }
    }
    Ok(())
}

/// Adds the row of a fragment that is read.
fn push_source(out: &mut String, source: Fragment, coefficient: u8) -> Result<(), AllocError>
    ensures { OnOk result (string_bytes out.new ≡ string_bytes out.old ++ source_row (λ _. coefficient) source) }
{
    let number = source.value;
    write!(out, "{number},{coefficient}\n")
}
