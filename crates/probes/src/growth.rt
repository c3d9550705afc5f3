//! One call in which allocations can fail: a mark, the call, and a second mark, with all that can be asked before and after.
//! `tests/proofs/growth` refuses memory between the marks, and compares the output.

mod books;
mod keepers;
mod made;
mod managers;
mod runs;
pub mod trial;

use crate::stop::Stop;
use std::thread::Threads;
use trial::Call;
pub(crate) use trial::Host;

/// Tries the call with this name. It takes the text that the call reads, or a script that ends with the call's command.
pub(crate) fn try_call<R: Host + Threads + Sync>(
    rt: &R,
    name: &str,
    text: &str,
) -> Result<(), Stop> {
    match name {
        "Book::call" => books::try_call(rt, Call::Command, text),
        "Book::decide" => books::try_call(rt, Call::Decide, text),
        "Book::prepare" => books::try_call(rt, Call::Prepare, text),
        "Book::risk" => books::try_call(rt, Call::Risk, text),
        "Keeper::apply" => keepers::try_call(rt, Call::Command, text),
        "Viewer::risk" => keepers::try_call(rt, Call::Risk, text),
        "Viewer::level_of" => keepers::try_call(rt, Call::Looks, text),
        "Manager::call" => managers::try_call(rt, Call::Command, text),
        "Session::risk" => managers::try_call(rt, Call::Risk, text),
        "Session::level_of" => managers::try_call(rt, Call::Looks, text),
        "Manager::meet" => managers::try_call(rt, Call::Meet, text),
        "Manager::finish" => managers::try_call(rt, Call::Finish, text),
        "run_sessions" => runs::try_call(rt, text),
        _ => made::try_call(rt, name, text),
    }
}
