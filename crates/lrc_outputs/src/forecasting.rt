//! What would become of the stripes if nodes were stopped or lost, after the script of a sequel.

ghost use Rattle.std.specs.Prelude.{◌≡◌, ◌≤◌, true, [], length, IfOk, IfErr};
ghost use Rattle.lrc_images.specs.Causes.{most_entries};
ghost use Rattle.lrc_groups.specs.Groups.{first_lacking};
ghost use Rattle.lrc_outputs.specs.RefusedInputs.{is_answer};
ghost use Rattle.lrc_outputs.specs.Judged.{lists_of, AreFew};
ghost use Rattle.lrc_outputs.specs.OutputErrors.{IsRefusedWith};
ghost use Rattle.lrc_outputs.specs.Sequels.{safety_status, IsForecast, IsForecastUnless};
ghost use Rattle.lrc_streams.specs.declared.streams.RunFault.TheVariants as fault;

use crate::error::OutputError;
use crate::output::Output;
use crate::play::make_scripts;
use crate::status::Status;
use lrc_book::{Book, Command, HISTORY_LIMIT};
use lrc_forecast::{Outage, forecast, is_safe};
use lrc_groups::{Named, first_lacking, numbers_in};
use lrc_refusals::InputRefusal;
use lrc_show::shown_forecast;
use lrc_streams::RunFault;
use std::alloc::Global;

/// The output of the forecast after the only script, if there is one, on a book without entries; or the refusal of the
/// first that is named and that no node has.
pub(crate) fn forecast_after(
    alloc: Global,
    book: &mut Book,
    scripts: &[Vec<Command>],
    outage: Outage,
    named: &[Named],
) -> Result<Output, OutputError>
    requires fresh { (book.old.history ≡ []) × (book.old.limit ≡ HISTORY_LIMIT) × (book.old.before ≤ most_entries) }
    requires few { AreFew scripts.now }
    requires alone { length scripts.now ≤ 1 }
    ensures output { IfOk result (λ o. IsForecastUnless (first_lacking book.old.nodes named.now) outage named.now
        book.old.nodes book.old.base book.old.before (lists_of scripts.now) o.text.items o.status) }
    ensures refused { IfErr result (IsRefusedWith (IsForecastUnless (first_lacking book.old.nodes named.now) outage
        named.now book.old.nodes book.old.base book.old.before (lists_of scripts.now))) }
{
    if let Some(lacking) = first_lacking(book.topology(), named) {
        return Err(OutputError::Refused(InputRefusal::Lacking(lacking)));
    }
    make_scripts(book, scripts)?;
    let output = forecast_output(alloc, book, outage, named)?;
    Ok(output)
}

/// The output with the forecast of a book's state.
fn forecast_output(
    alloc: Global,
    book: &Book,
    outage: Outage,
    named: &[Named],
) -> Result<Output, RunFault>
    ensures output { IfOk result (λ o. IsForecast outage named.now book.now (o.text.items) o.status) }
    ensures err { IfErr result (λ e. e ≡ fault.OutOfMemory) }
{
    let nodes = numbers_in(alloc, book.topology(), named)?;
    let rows = forecast(alloc, book, outage, nodes.as_slice())?;
    let text = shown_forecast(alloc, rows.as_slice())?;
    let status = safety_status(is_safe(rows.as_slice()));
    Ok(Output::answer(text, status))
}

/// How a command ends that tells whether a store is safe.
pub(crate) fn safety_status(is_safe: bool) -> Status
    ensures status { result ≡ safety_status is_safe }
    ensures answer { is_answer result ≡ true }
{
    if is_safe {
        Status::Done
    } else {
        Status::Unsafe
    }
}
