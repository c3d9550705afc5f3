ghost use Rattle.std.specs.Prelude.{◌≡◌, true, false, is_none, IfOk, IfErr, IfSome};
ghost use Rattle.std.proofs.Props.{props};
ghost use Rattle.lrc_refusals.specs.Refusals.{refusal_line};
ghost use Rattle.lrc_outputs.specs.RefusedInputs.{refusal_status, is_answer};
ghost use Rattle.lrc_outputs.specs.declared.status.Status.TheVariants as ended;
ghost use Rattle.lrc_streams.specs.declared.streams.RunFault.TheVariants as fault;

use crate::status::Status;
use lrc_refusals::InputRefusal;
use lrc_streams::RunFault;
use std::alloc::Global;

/// What a call writes, and how it ends.
#[derive(Drop)]
pub struct Output {
    pub text: Vec<u8>,
    pub status: Status,
    /// Why the input is refused, if it is; then the text is the line for it.
    pub refusal: Option<InputRefusal>,
    ghost answered: { is_answer status ≡ is_none refusal },
    ghost told: { IfSome refusal (λ r. text.items ≡ refusal_line r) } by { Prim.hlevel props },
}

impl Output {
    /// An answer.
    pub(crate) fn done(text: Vec<u8>) -> Output
        ensures text { result.text.items ≡ text.items }
        ensures status { result.status ≡ ended.Done }
    {
        Output::answer(text, Status::Done)
    }

    /// An answer that ends with this status.
    pub(crate) fn answer(text: Vec<u8>, status: Status) -> Output
        requires { is_answer status ≡ true }
        ensures text { result.text.items ≡ text.items }
        ensures status { result.status ≡ status }
    {
        let refusal = None;
        Output {
            text,
            status,
            refusal,
        }
    }

    /// The output for a refused input.
    pub(crate) fn refused(alloc: Global, refusal: InputRefusal) -> Result<Output, RunFault>
        ensures text { IfOk result (λ o. o.text.items ≡ refusal_line refusal) }
        ensures status { IfOk result (λ o. o.status ≡ refusal_status refusal) }
        ensures err { IfErr result (λ e. e ≡ fault.OutOfMemory) }
    {
        let mut line = String::new(alloc);
        refusal.push_line(&mut line)?;
        Ok(Output {
            text: line.into_bytes(),
            status: status_of(refusal),
            refusal: Some(refusal),
        })
    }
}

/// How a call ends that refuses its input.
fn status_of(refusal: InputRefusal) -> Status
    ensures status { result ≡ refusal_status refusal }
    ensures refused { is_answer result ≡ false }
{
    match refusal {
        InputRefusal::Line(..) => Status::BadLine,
        InputRefusal::TooLong
        | InputRefusal::TooManyScripts
        | InputRefusal::Topology(_)
        | InputRefusal::ImageLine(_)
        | InputRefusal::Row(..)
        | InputRefusal::FullImage
        | InputRefusal::Lacking(_) => Status::Refused,
    }
}
