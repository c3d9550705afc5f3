//! The table that is asked for.

ghost use Rattle.std.specs.Prelude.{◌≡◌, ◌+◌, length, IfOk, IfErr};
ghost use Rattle.lrc_code.specs.declared.fault.Fault.TheVariants as fault;
ghost use Rattle.lrc_book.specs.Books.{state_of};
ghost use Rattle.lrc_show.specs.Shown.{view_text, tells_danger};

use crate::capacity::push_capacities;
use crate::domains::{DomainKind, push_domains};
use crate::fragments::push_fragment_table;
use crate::health::{is_in_danger, push_health};
use crate::leases::push_leases;
use crate::nodes::push_nodes;
use crate::status::push_status;
use crate::stripes::push_stripes;
use crate::work::push_work;
use lrc_book::Book;
use lrc_code::Fault;
use std::alloc::Global;

/// A table of the state of a store.
#[derive(Clone, Copy, Debug, Drop, PartialEq, Eq)]
pub enum View {
    /// A summary in names and values.
    Status,
    /// Each stripe with its level, its missing fragments and its homes.
    Stripes,
    /// Each node with its domains, its mode and its seats.
    Nodes,
    /// Each live lease.
    Leases,
    /// Each fragment that needs a lease, in the order of repair.
    Work,
    /// Each fragment of each stripe, with its home and its live lease.
    Fragments,
    /// Each domain of a kind, with the levels after its loss, or its stop.
    Domains(DomainKind),
    /// Each reason why not all is well.
    Health,
    /// How many more stripes of each code the choice rule places, and why no more.
    Capacity,
}

/// The table of a book's state: a line of heads and a line for each row, of fields with commas between them.
///
/// # Errors
///
/// Only `Fault::OutOfMemory`.
pub fn shown(alloc: Global, book: &Book, view: View) -> Result<Vec<u8>, Fault>
    ensures text { IfOk result (λ v. v.items ≡ view_text view book.now.nodes (state_of book.now) (book.now.before + length book.now.history)) }
    ensures err { IfErr result (λ e. e ≡ fault.OutOfMemory) }
{
    let mut out = String::new(alloc);
    match view {
        View::Status => push_status(&mut out, alloc, book)?,
        View::Stripes => push_stripes(&mut out, book)?,
        View::Nodes => push_nodes(&mut out, alloc, book)?,
        View::Leases => push_leases(&mut out, alloc, book)?,
        View::Work => push_work(&mut out, alloc, book)?,
        View::Fragments => push_fragment_table(&mut out, alloc, book)?,
        View::Domains(kind) => push_domains(&mut out, alloc, book, kind)?,
        View::Health => push_health(&mut out, alloc, book)?,
        View::Capacity => push_capacities(&mut out, alloc, book)?,
    }
    Ok(out.into_bytes())
}

/// Whether the table tells of danger: that of health does where a stripe is lost or unavailable, or would be after one more loss
/// of a fragment. No other table does.
///
/// # Errors
///
/// Only `Fault::OutOfMemory`.
pub fn tells_danger(alloc: Global, book: &Book, view: View) -> Result<bool, Fault>
    ensures value { IfOk result (λ danger. danger ≡ tells_danger view book.now.nodes (state_of book.now)) }
    ensures err { IfErr result (λ e. e ≡ fault.OutOfMemory) }
{
    match view {
        View::Health => is_in_danger(alloc, book),
        View::Status
        | View::Stripes
        | View::Nodes
        | View::Leases
        | View::Work
        | View::Fragments
        | View::Domains(_)
        | View::Capacity => Ok(false),
    }
}
