//! How a fragment is rebuilt, from words to the bytes of the sinks, and the generator matrix of a code.

ghost use Rattle.std.specs.Prelude.{◌≡◌, IfOk};
ghost use Rattle.lrc_outputs.specs.declared.status.Status.TheVariants.{Done};
ghost use Rattle.lrc_coding.specs.Told.{matrix_text};
ghost use Rattle.lrc_tool.specs.Answering.{one_outcome, writing, no_writing, Writes};
ghost use Rattle.lrc_tool.specs.Coding.{told_text, rebuilding};

use crate::outcome::write_outcome;
use lrc_code::Code;
use lrc_coding::{Recipe, RecipeRefusal, push_matrix, push_recipe, recipe_for};
use lrc_outputs::Status;
use lrc_streams::{RunFault, Sink};
use lrc_text::parse_mask;
use std::alloc::{AllocError, Global};

/// Writes how a fragment of a stripe of the code is rebuilt where the fragments of the mask are missing: the
/// fragments that are read, and the coefficient of each. The words are a mask as `recover` takes it, and the number
/// of the fragment. Where there is no such recipe, it writes why to `errors`, and nothing to `sink`.
///
/// # Errors
///
/// `OutOfMemory`; `Write` if a write to either fails.
pub fn recipe<W: Sink, E: Sink>(
    alloc: Global,
    code: Code,
    mask: &str,
    fragment: &str,
    sink: &mut W,
    errors: &mut E,
) -> Result<Status, RunFault>
    ensures writes { Writes (rebuilding code mask.now fragment.now) (writing W.Sink sink.old sink.new)
        (writing E.Sink errors.old errors.new) result }
{
    let answer = recipe_for(code, parse_mask(code, mask), fragment);
    let told = told_text(alloc, &answer)?;
    match answer {
        Ok(_) => write_outcome(sink, told.as_slice(), Status::Done),
        Err(_) => write_outcome(errors, told.as_slice(), Status::Refused),
    }
}

/// The table of a recipe, or the line that says why there is none.
fn told_text(alloc: Global, answer: &Result<Recipe, RecipeRefusal>) -> Result<Vec<u8>, AllocError>
    ensures { IfOk result (λ told. told.items ≡ told_text answer.now) }
{
    let mut told = String::new(alloc);
    match answer {
        Ok(recipe) => push_recipe(&mut told, recipe)?,
        Err(refusal) => refusal.push_text(&mut told)?,
    }
    Ok(told.into_bytes())
}

/// Writes the generator matrix of the code: a line for each fragment, with the coefficient of each data fragment as two
/// hexadecimal digits.
///
/// # Errors
///
/// `OutOfMemory`; `Write` if a write fails.
pub fn matrix<W: Sink>(alloc: Global, code: Code, sink: &mut W) -> Result<Status, RunFault>
    ensures writes { Writes (one_outcome (matrix_text code) Done) (writing W.Sink sink.old sink.new) no_writing result }
{
    let told = matrix_text(alloc, code)?;
    write_outcome(sink, told.as_slice(), Status::Done)
}

/// The generator matrix of the code, as a text.
fn matrix_text(alloc: Global, code: Code) -> Result<Vec<u8>, AllocError>
    ensures { IfOk result (λ told. told.items ≡ matrix_text code) }
{
    let mut told = String::new(alloc);
    push_matrix(&mut told, code)?;
    Ok(told.into_bytes())
}
