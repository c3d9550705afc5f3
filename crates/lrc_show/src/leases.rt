//! The table of live leases.

ghost use Rattle.std.specs.Prelude.{◌≡◌, ◌++◌, string_bytes, IfOk, OnOk, IfErr};
ghost use Rattle.lrc_code.specs.declared.fault.Fault.TheVariants as fault;
ghost use Rattle.lrc_book.specs.Books.{state_of};
ghost use Rattle.lrc_show.specs.Listed.{shown_lease, leases_of, all_leases, leases_table};

use lrc_book::{Book, Lease};
use lrc_code::{Fault, Fragment, StripeNo};
use std::alloc::{AllocError, Global};

/// The live leases of a book, in rising order of stripe and fragment.
pub(crate) fn leases_of(alloc: Global, book: &Book) -> Result<Vec<Lease>, Fault>
    ensures value { IfOk result (λ rows. rows.items ≡ all_leases (state_of book.now)) }
    ensures err { IfErr result (λ e. e ≡ fault.OutOfMemory) }
{
    let stripes = book.stripes(alloc)?;
    let mut rows = Vec::new(alloc);
    for stripe in stripes.as_slice() {
        gather_leases(&mut rows, book, *stripe)?;
    }
    Ok(rows)
}

/// Adds the live leases of a stripe, in rising order of fragment.
fn gather_leases(rows: &mut Vec<Lease>, book: &Book, stripe: StripeNo) -> Result<(), Fault>
    ensures value { OnOk result (rows.new.items ≡ rows.old.items ++ leases_of (state_of book.now) stripe) }
    ensures err { IfErr result (λ e. e ≡ fault.OutOfMemory) }
{
    for fragment in Fragment::all() {
        if let Some(lease) = book.lease(stripe, fragment) {
            rows.push(lease)?;
        }
    }
    Ok(())
}

/// Adds the table of live leases.
pub(crate) fn push_leases(out: &mut String, alloc: Global, book: &Book) -> Result<(), Fault>
    ensures text { OnOk result (string_bytes out.new ≡ string_bytes out.old ++ leases_table (state_of book.now)) }
    ensures err { IfErr result (λ e. e ≡ fault.OutOfMemory) }
{
    let leases = leases_of(alloc, book)?;
    out.push_str("stripe,fragment,holder,target,epoch,expiry\n")?;
    for lease in leases.as_slice() {
        push_lease(out, lease)?;
    }
    Ok(())
}

/// Adds the row of a lease.
fn push_lease(out: &mut String, lease: &Lease) -> Result<(), AllocError>
    ensures { OnOk result (string_bytes out.new ≡ string_bytes out.old ++ shown_lease lease.now) }
{
    let stripe = lease.stripe.value;
    let fragment = lease.fragment.value;
    let holder = lease.holder.value;
    let node = lease.target.node.value;
    let slot = lease.target.slot;
    let epoch = lease.epoch;
    let expiry = lease.expiry;
    write!(
        out,
        "{stripe},{fragment},{holder},{node}:{slot},{epoch},{expiry}\n"
    )
}
