//! Calls that make a value.

use crate::growth::trial::{Host, begin, end};
use crate::growth::{keepers, managers};
use crate::stop::Stop;
use lrc_book::Book;
use lrc_image_text::read_image;
use lrc_samples::twenty_nodes;
use lrc_script::parse_script;
use lrc_sessions::Parts;
use lrc_slots::SlotTable;
use lrc_stripes::Stripes;
use lrc_topology::Topology;
use std::alloc::Global;

/// Makes the value of a call, and makes it again if an allocation failed.
pub(crate) fn try_call(rt: &impl Host, call: &str, text: &str) -> Result<(), Stop> {
    if try_once(rt, call, text)? {
        try_once(rt, call, text)?;
    }
    Ok(())
}

/// Makes the value, and returns whether an allocation failed.
fn try_once(rt: &impl Host, call: &str, text: &str) -> Result<bool, Stop> {
    match call {
        "Book::begin" => begin_book(rt, text),
        "Keeper::open" => keepers::open_once(rt),
        "Manager::open" => managers::open_once(rt),
        _ => make_once(rt, call, text),
    }
}

/// The same for a value that is made of a text or of the nodes of a store. It is dropped before the second mark.
fn make_once(rt: &impl Host, call: &str, text: &str) -> Result<bool, Stop> {
    match call {
        "Topology::read" => {
            begin(rt);
            end(rt, &Topology::read(rt.alloc(), text.as_bytes()).and(Ok(())))
        }
        "parse_script" => {
            begin(rt);
            end(rt, &parse_script(rt.alloc(), text.as_bytes(), 1))
        }
        _ => make_of_nodes(rt, call, twenty_nodes(rt.alloc())?),
    }
}

fn make_of_nodes(rt: &impl Host, call: &str, nodes: Topology) -> Result<bool, Stop> {
    begin(rt);
    match call {
        "Book::new" => end(rt, &Book::new(rt.alloc(), nodes).and(Ok(()))),
        "Book::with_limit" => end(rt, &Book::with_limit(rt.alloc(), nodes, 2).and(Ok(()))),
        "Parts::new" => end(rt, &Parts::new(rt.alloc(), nodes, 2).and(Ok(()))),
        "Parts::with_limit" => end(rt, &Parts::with_limit(rt.alloc(), nodes, 2, 2).and(Ok(()))),
        _ => {
            let is_refused = make_table(rt, call, &nodes);
            drop(nodes);
            is_refused
        }
    }
}

fn make_table(rt: &impl Host, call: &str, nodes: &Topology) -> Result<bool, Stop> {
    match call {
        "SlotTable::new" => end(rt, &SlotTable::new(rt.alloc(), nodes).and(Ok(()))),
        "Stripes::new" => end(rt, &Stripes::new(rt.alloc(), nodes).and(Ok(()))),
        _ => Err(Stop::Failed),
    }
}

/// Makes a book that begins in the image of a text, and returns whether an allocation failed.
fn begin_book(rt: &impl Host, text: &str) -> Result<bool, Stop> {
    let alloc = rt.alloc();
    let nodes = twenty_nodes(alloc)?;
    let Ok(image) = read_image(alloc, text.as_bytes()) else {
        return Err(Stop::Failed);
    };
    begin(rt);
    end(rt, &Book::begin(alloc, nodes, image).and(Ok(())))
}
