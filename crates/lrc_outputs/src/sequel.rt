//! Going on from an image: the script of a sequel, and what is written after it.

ghost use Rattle.std.specs.Prelude.{◌≡◌, ◌≤◌, [], length, IfOk, IfErr};
ghost use Rattle.lrc_images.specs.Causes.{most_entries};
ghost use Rattle.lrc_outputs.specs.Judged.{lists_of, AreFew};
ghost use Rattle.lrc_outputs.specs.OutputErrors.{IsRefusedWith};
ghost use Rattle.lrc_outputs.specs.Sequels.{IsImaged, IsTable, IsReached, IsSequelOutput};
ghost use Rattle.lrc_streams.specs.declared.streams.RunFault.TheVariants as fault;

use crate::begin::begin;
use crate::error::OutputError;
use crate::forecasting::{forecast_after, safety_status};
use crate::output::Output;
use crate::play::{make_scripts, play_on};
use lrc_book::{Book, Command, HISTORY_LIMIT};
use lrc_code::Fault;
use lrc_forecast::Outage;
use lrc_groups::Named;
use lrc_openings::image_text;
use lrc_refusals::InputRefusal;
use lrc_show::{View, shown, tells_danger};
use lrc_streams::RunFault;
use std::alloc::Global;

/// What is written for a sequel that passes all checks.
#[derive(Clone, Copy, Debug, PartialEq, Eq)]
pub enum Goal<'a> {
    /// The replies to its script and both tables, as `run` writes them.
    Replies,
    /// The image of the state after its script.
    Image,
    /// A table of the state after its script.
    Table(View),
    /// What would become of the stripes of that state if this happened to all these nodes at once.
    Forecast(Outage, &'a [Named]),
}

/// Runs the script of a sequel, from its image on, and returns the output.
///
/// # Errors
///
/// `OutOfMemory`.
pub fn sequel_output(alloc: Global, goal: Goal<'_>, sequel: &[u8]) -> Result<Output, RunFault>
    ensures output { IfOk result (λ o. IsSequelOutput goal.entry sequel.now (o.text.items) o.status) }
    ensures err { IfErr result (λ e. e ≡ fault.OutOfMemory) }
{
    match run_sequel(alloc, goal, sequel) {
        Ok(output) => Ok(output),
        Err(error) => error.into_output(alloc),
    }
}

/// Runs the script of a sequel that passes all checks, and returns the output.
fn run_sequel(alloc: Global, goal: Goal<'_>, sequel: &[u8]) -> Result<Output, OutputError>
    ensures output { IfOk result (λ o. IsSequelOutput goal.entry sequel.now o.text.items o.status) }
    ensures refused { IfErr result (IsRefusedWith (IsSequelOutput goal.entry sequel.now)) }
{
    let mut begun = begin(alloc, sequel)?;
    reach(alloc, goal, &mut begun.book, begun.scripts.as_slice())
}

/// The output for the only script, if there is one, on a book without entries.
fn reach(
    alloc: Global,
    goal: Goal<'_>,
    book: &mut Book,
    scripts: &[Vec<Command>],
) -> Result<Output, OutputError>
    requires fresh { (book.old.history ≡ []) × (book.old.limit ≡ HISTORY_LIMIT) × (book.old.before ≤ most_entries) }
    requires few { AreFew scripts.now }
    requires alone { length scripts.now ≤ 1 }
    ensures output { IfOk result (λ o. IsReached goal.entry book.old.nodes book.old.base book.old.before
        (lists_of scripts.now) o.text.items o.status) }
    ensures refused { IfErr result (IsRefusedWith (IsReached goal.entry book.old.nodes book.old.base book.old.before
        (lists_of scripts.now))) }
{
    match goal {
        Goal::Replies => {
            let text = play_on(alloc, book, scripts, Vec::new(alloc))?;
            Ok(Output::done(text))
        }
        Goal::Image => {
            make_scripts(book, scripts)?;
            image_output(alloc, book)
        }
        Goal::Table(view) => {
            make_scripts(book, scripts)?;
            Ok(table_output(alloc, book, view)?)
        }
        Goal::Forecast(outage, named) => forecast_after(alloc, book, scripts, outage, named),
    }
}

/// The output with a table of a book's state.
fn table_output(alloc: Global, book: &Book, view: View) -> Result<Output, RunFault>
    ensures output { IfOk result (λ o. IsTable view book.now o.text.items o.status) }
    ensures err { IfErr result (λ e. e ≡ fault.OutOfMemory) }
{
    let text = shown(alloc, book, view)?;
    let status = safety_status(!tells_danger(alloc, book, view)?);
    Ok(Output::answer(text, status))
}

/// The output with the image of a book's state.
fn image_output(alloc: Global, book: &Book) -> Result<Output, OutputError>
    ensures output { IfOk result (λ o. IsImaged book.now o.text.items o.status) }
    ensures refused { IfErr result (IsRefusedWith (IsImaged book.now)) }
{
    match image_text(alloc, book) {
        Ok(text) => Ok(Output::done(text)),
        Err(Fault::HistoryFull) => Err(OutputError::Refused(InputRefusal::FullImage)),
        Err(Fault::OutOfMemory) => Err(OutputError::Fault(RunFault::OutOfMemory)),
    }
}
