ghost use Rattle.std.specs.Prelude.{◌≡◌, ℕ, ◌&&◌, not, nat_lt, get_or, None};
ghost use Rattle.std.specs.Option.{option_copied};
ghost use Rattle.lrc_code.specs.Codes.{has_fragment};
ghost use Rattle.lrc_code.specs.Losses.{bits_set};
ghost use Rattle.lrc_book.specs.Books.{state_of};
ghost use Rattle.lrc_board.specs.Views.{homes_row};
ghost use Rattle.lrc_board.specs.Looks.{has_flag, homes_in, level_with, stands_in};
ghost use Rattle.lrc_board.specs.Refreshed.{is_seated_on};

use lrc_book::{Book, Level};
use lrc_code::{Code, Fragment, LossMask, NodeNo, StripeNo};
use lrc_homes::{Homes, level_by, masks};
use lrc_topology::Seat;

/// The code of a stripe, and the home of each of its fragments. Its level follows from these and from the nodes that are online.
#[derive(Drop)]
pub struct StripeHomes {
    pub(crate) code: Code,
    pub(crate) homes: Homes,
}

impl StripeHomes {
    /// Copies the code and the homes of a stripe from a book. Returns `None` if there is no such stripe.
    pub(crate) fn of(book: &Book, stripe: StripeNo) -> Option<StripeHomes>
        ensures { result ≡ homes_row (state_of book.now) stripe }
    {
        let code = book.code(stripe)?;
        let homes = book.packed_homes(stripe)?;
        Some(StripeHomes { code, homes })
    }

    /// Reports whether a fragment has its home on the node.
    pub(crate) fn is_on(&self, node: NodeNo) -> bool
        ensures { result ≡ is_seated_on node self.now }
    {
        self.homes.fragments_on(node).bits != 0
    }

    /// Returns the level of the stripe, by the node numbers that are online.
    pub(crate) fn level(&self, online: &[bool]) -> Level
        ensures { result ≡ level_with online.now self.now }
    {
        let homeless = all_but(self.code, self.homes.homed());
        let missing = all_but(self.code, standing(&self.homes, online));
        level_by(self.code, homeless, missing)
    }
}

/// Returns the row of a stripe, if there is one.
pub(crate) fn homes_in(rows: &[Option<StripeHomes>], stripe: StripeNo) -> Option<&StripeHomes>
    ensures { option_copied result ≡ homes_in rows.now stripe }
{
    match rows.get(usize::from(stripe.get())) {
        Some(row) => row.as_ref(),
        None => None,
    }
}

/// Returns the fragments with a home on an online node.
fn standing(homes: &Homes, online: &[bool]) -> LossMask
    ensures { (f : ℕ) → bits_set result.bits f ≡ (nat_lt f 16 && stands_in online.now (get_or homes.now f None)) }
{
    let mut mask = LossMask::from_bits(0);
    for fragment in Fragment::all() {
        mask = masks::with_where(mask, fragment, stands(homes.home(fragment), online));
    }
    mask
}

/// Reports whether a home is on an online node.
fn stands(home: Option<Seat>, online: &[bool]) -> bool
    ensures { result ≡ stands_in online.now home }
{
    match home {
        Some(seat) => is_online(online, seat.node),
        None => false,
    }
}

/// Reports whether a node number is online.
fn is_online(online: &[bool], node: NodeNo) -> bool
    ensures { result ≡ has_flag online.now node }
{
    match online.get(usize::from(node.get())) {
        Some(flag) => *flag,
        None => false,
    }
}

/// Returns the fragments of the code that are not in the set.
fn all_but(code: Code, set: LossMask) -> LossMask
    ensures { (f : ℕ) → bits_set result.bits f ≡ (has_fragment code f && not (bits_set set.bits f)) }
{
    masks::put(LossMask::all_of(code), set, false)
}
