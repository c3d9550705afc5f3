//! Which fragments have another home or lease after an entry, by its command and its reply.

ghost use Rattle.std.specs.Prelude.{◌≡◌};
ghost use Rattle.lrc_changes.specs.Touched.{touches, is_placed_wide, is_placed_narrow, is_dropped, is_let_go};
ghost use Rattle.lrc_changes.specs.Touched.{is_emptied, has_seat_on, hangs_over, ends, reach_of, places_of, reach};

use lrc_code::{FRAGMENTS, Fragment, NARROW_FRAGMENTS, NodeNo, STRIPES, StripeNo};
use lrc_rules::{Command, Entry, Lease, Reply, Seat};

/// How many fragments all stripe numbers have.
const PLACES: usize = STRIPES * FRAGMENTS;

/// A fragment, with the home and the lease that it has before a call.
#[derive(Clone, Copy)]
pub struct Former {
    pub stripe: StripeNo,
    pub fragment: Fragment,
    pub home: Option<Seat>,
    pub lease: Option<Lease>,
}

/// Whether the home or lease of the fragment is another one after the entry.
pub(crate) fn touches(entry: &Entry, former: &Former) -> bool
    ensures { result ≡ touches entry.now.command entry.now.reply former.now }
{
    match entry.reply {
        Reply::Placed(_) => is_placed_wide(entry.command, former),
        Reply::Placed6(_) => is_placed_narrow(entry.command, former),
        Reply::Dropped => is_dropped(entry.command, former),
        Reply::Granted(lease, _) => {
            lease.stripe == former.stripe && lease.fragment == former.fragment
        }
        Reply::Ended => is_let_go(entry.command, former),
        Reply::Changed => is_emptied(entry.command, former),
        Reply::Ticked { clock, .. } => ends(clock, former.lease),
        Reply::Idle | Reply::Refused(_) => false,
    }
}

/// Whether the command places the fragment's stripe as a wide one.
fn is_placed_wide(command: Command, former: &Former) -> bool
    ensures { result ≡ is_placed_wide command former.now }
{
    match command {
        Command::Place(stripe) => stripe == former.stripe,
        _ => false,
    }
}

/// Whether the command places the fragment's stripe as a narrow one, which has the fragment.
fn is_placed_narrow(command: Command, former: &Former) -> bool
    ensures { result ≡ is_placed_narrow command former.now }
{
    match command {
        Command::Place6(stripe) => {
            stripe == former.stripe && (former.fragment.value as usize) < NARROW_FRAGMENTS
        }
        _ => false,
    }
}

/// Whether the command drops the fragment's stripe, and with it a home or a lease.
fn is_dropped(command: Command, former: &Former) -> bool
    ensures { result ≡ is_dropped command former.now }
{
    match command {
        Command::Drop(stripe) => {
            stripe == former.stripe && (former.home.is_some() || former.lease.is_some())
        }
        _ => false,
    }
}

/// Whether the command ends a lease of the fragment.
fn is_let_go(command: Command, former: &Former) -> bool
    ensures { result ≡ is_let_go command former.now }
{
    match command {
        Command::Done(stripe, fragment, _)
        | Command::Abandon(stripe, fragment, _)
        | Command::Revoke(stripe, fragment) => {
            stripe == former.stripe && fragment == former.fragment
        }
        _ => false,
    }
}

/// Whether the command takes the fragment's home, or the target of its lease.
fn is_emptied(command: Command, former: &Former) -> bool
    ensures { result ≡ is_emptied command former.now }
{
    match command {
        Command::Fail(node) => is_on(node, former.home) || is_target_on(node, former.lease),
        _ => false,
    }
}

/// Whether the home is on the node.
fn is_on(node: NodeNo, home: Option<Seat>) -> bool
    ensures { result ≡ has_seat_on node home }
{
    match home {
        Some(seat) => node == seat.node,
        None => false,
    }
}

/// Whether the target of the lease is on the node.
fn is_target_on(node: NodeNo, lease: Option<Lease>) -> bool
    ensures { result ≡ hangs_over node lease }
{
    match lease {
        Some(lease) => lease.target.node == node,
        None => false,
    }
}

/// Whether the lease ends at this clock.
fn ends(clock: u32, lease: Option<Lease>) -> bool
    ensures { result ≡ ends clock lease }
{
    match lease {
        Some(lease) => lease.expiry == clock,
        None => false,
    }
}

/// The places of all fragments that the entry may change: from the first number, and before the second. Each stripe
/// number has sixteen.
pub(crate) fn reach(entry: &Entry) -> (usize, usize)
    ensures { result ≡ reach entry.now.command entry.now.reply }
{
    match entry.reply {
        Reply::Idle | Reply::Refused(_) => (0, 0),
        Reply::Granted(lease, _) => places_of(lease.stripe),
        Reply::Ticked { ended, .. } => { if ended == 0 { (0, 0) } else { (0, PLACES) } }
        _ => reach_of(entry.command),
    }
}

/// The same by the command, if it is not refused.
fn reach_of(command: Command) -> (usize, usize)
    ensures { result ≡ reach_of command }
{
    match command {
        Command::Place(stripe)
        | Command::Place6(stripe)
        | Command::Drop(stripe)
        | Command::Done(stripe, _, _)
        | Command::Abandon(stripe, _, _)
        | Command::Revoke(stripe, _) => places_of(stripe),
        Command::Fail(_) => (0, PLACES),
        _ => (0, 0),
    }
}

/// The places of a stripe.
fn places_of(stripe: StripeNo) -> (usize, usize)
    ensures { result ≡ places_of stripe }
{
    let start = FRAGMENTS * stripe.value as usize;
    (start, start + FRAGMENTS)
}
