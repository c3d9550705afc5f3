//! The program `probes` tries and measures the crates below from inside. `probes growth CALL TEXT` makes one call in which
//! allocations can fail, for `tests/proofs/growth`; `probes looks READERS LOOKS CALLS` makes calls while others look, for `bench/looks`.
#![tactic(auto)]

mod growth;
mod looks;
mod stop;
mod store;

use crate::stop::Stop;
use std::env;
use std::process::ExitCode;
use std::rt::Clock;
use std::sync::Wait;
use std::thread::Threads;
use std::time::CpuClock;

/// Reads the command line and does what it asks for, with these threads.
fn perform<T: growth::Host + Threads + Clock + CpuClock + Sync>(
    rt: &HostRuntime,
    threads: &T,
) -> Result<(), Stop> {
    let words = env::args(rt)?.collect::<Vec<String>>(rt.alloc())?;
    serve(rt, threads, words.as_slice())
}

fn serve<T: growth::Host + Threads + Clock + CpuClock + Sync>(
    rt: &HostRuntime,
    threads: &T,
    words: &[String],
) -> Result<(), Stop> {
    match words {
        [_program, word, call, text] if word.as_str() == "growth" => {
            growth::try_call(threads, call.as_str(), text.as_str())
        }
        [_program, word, readers, looks, calls] if word.as_str() == "looks" => {
            looks::measure(rt, threads, looks::parse_request(readers, looks, calls)?)
        }
        _ => Err(Stop::Usage),
    }
}

fn main(rt: HostRuntime) -> ExitCode {
    match perform(&rt, &rt) {
        Ok(()) => ExitCode::from(0),
        Err(stop) => {
            let _ = eprintln!(&rt; "{}", stop.text());
            ExitCode::from(stop.status())
        }
    }
}
