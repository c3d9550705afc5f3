//! The stripes of an image.

ghost use Rattle.std.specs.Prelude.{◌≡◌, ℕ, ◌∷◌, ◌++◌, [], flat_map, Some, None, IfErr, OnOk, IsOk, IsTrue, IsFalse};
ghost use Rattle.lrc_stripes.specs.Tables.{stored_in};
ghost use Rattle.lrc_rules.specs.States.{State};
ghost use Rattle.lrc_rules.specs.Placement.{with_home};
ghost use Rattle.lrc_rules.specs.Steps.{with_stripe};
ghost use Rattle.lrc_bars.specs.Ties.{with_homes as with_more};
ghost use Rattle.lrc_images.specs.declared.image.Image.{Image as AnyImage};
ghost use Rattle.lrc_images.specs.Images.{row_homes};
ghost use Rattle.lrc_images.specs.Rising.{stripe_first, IsRising};
ghost use Rattle.lrc_images.specs.Causes.{first_answer, seat_cause, stripe_cause, with_homes};
ghost use Rattle.lrc_store.specs.Stores.{IsOf, IsTied};
ghost use Rattle.lrc_restore.specs.Stages.{stripes_refusal};

use crate::error::RefusedRow;
use crate::order::{Ordered, is_out_of_order};
use crate::position::stripes_from;
use crate::seats::seat_refusal;
use lrc_code::{Code, Fragment, StripeNo};
use lrc_images::{Cause, Image, StripeRow};
use lrc_store::Store;
use lrc_topology::Seat;

/// Adds the stripes of an image, with their homes.
pub(crate) fn restore_stripes(store: &mut Store, image: &Image) -> Result<(), RefusedRow>
    requires { IsOf (with_homes image.now [] []) store.old }
    ensures nodes { store.new.topology ≡ store.old.topology }
    ensures kept { OnOk result (IsOf (with_homes image.now image.now.stripes.items (flat_map row_homes image.now.stripes.items)) store.new) }
    ensures lawful { IsOk result → stripes_refusal store.old.topology image.now ≡ None }
    ensures refused { IfErr result (λ r. stripes_refusal store.old.topology image.now ≡ Some (r.position, r.cause)) }
{
    let rows = image.stripes.as_slice();
    for (i, row) in rows.iter().enumerate() {
        let position = stripes_from(image) + i;
        restore_stripe(store, &rows[..i], row, position)?;
    }
    Ok(())
}

/// Adds the stripe of a row, with its homes. The rows before it are in the store.
fn restore_stripe(
    store: &mut Store,
    before: &[StripeRow],
    row: &StripeRow,
    position: usize,
) -> Result<(), RefusedRow>
    requires kept { (i : AnyImage) × IsOf (with_homes i before.now (flat_map row_homes before.now)) store.old }
    requires rising { IsRising stripe_first before.now }
    ensures nodes { store.new.topology ≡ store.old.topology }
    ensures kept { OnOk result ((i : AnyImage) → IsOf (with_homes i before.now (flat_map row_homes before.now)) store.old
        → IsOf (with_homes i (before.now ++ row.now ∷ []) (flat_map row_homes (before.now ++ row.now ∷ []))) store.new) }
    ensures lawful { IsOk result → (i : AnyImage) → IsOf (with_homes i before.now (flat_map row_homes before.now)) store.old
        → stripe_cause store.old.topology i before.now row.now ≡ None }
    ensures position { IfErr result (λ r. r.position ≡ position) }
    ensures refused { IfErr result (λ r. (i : AnyImage) → IsOf (with_homes i before.now (flat_map row_homes before.now)) store.old
        → stripe_cause store.old.topology i before.now row.now ≡ Some r.cause) }
{
    if is_out_of_order(before, row) {
        let cause = Cause::OutOfOrder;
        return Err(RefusedRow { position, cause });
    }
    add_stripe(store, row.code, row.stripe);
    match restore_homes(store, row) {
        Ok(()) => Ok(()),
        Err(cause) => Err(RefusedRow { position, cause }),
    }
}

impl Ordered for StripeRow {
    ghost use Rattle.std.proofs.Common.{rules};
    ghost use Rattle.std.proofs.lemmas.Grind.{common_steps};

    ghost first = { stripe_first };

    fn comes_before(&self, other: &StripeRow) -> bool {
        self.stripe.value < other.stripe.value
    }

    ghost joins = { Prim.search (rules, common_steps) };
}

/// Adds a stripe without homes. The store must not have it.
fn add_stripe(store: &mut Store, code: Code, stripe: StripeNo)
    requires tied { IsTied store.old }
    requires absent { IsFalse ((stored_in store.old.stripes).stripes stripe) }
    ensures nodes { store.new.topology ≡ store.old.topology }
    ensures kept { (st : State) → IsOf st store.old → IsOf (with_stripe st code stripe) store.new }
    ensures there { IsTrue ((stored_in store.new.stripes).stripes stripe) }
    ensures bare { (f : ℕ) → (stored_in store.new.stripes).homes stripe f ≡ None }
{
    match code {
        Code::Wide => store.stripes.add(stripe),
        Code::Narrow => store.stripes.add_narrow(stripe),
    }
}

/// Gives the fragments of a row their homes. The store must have the stripe, without homes.
fn restore_homes(store: &mut Store, row: &StripeRow) -> Result<(), Cause>
    requires tied { IsTied store.old }
    requires there { IsTrue ((stored_in store.old.stripes).stripes row.now.stripe) }
    requires bare { (f : ℕ) → (stored_in store.old.stripes).homes row.now.stripe f ≡ None }
    ensures nodes { store.new.topology ≡ store.old.topology }
    ensures kept { OnOk result ((st : State) → IsOf st store.old → IsOf (with_more st (row_homes row.now)) store.new) }
    ensures lawful { IsOk result → (st : State) → IsOf st store.old
        → first_answer (λ homes h. seat_cause store.old.topology (with_more st homes) h) [] (row_homes row.now) ≡ None }
    ensures refused { IfErr result (λ e. (st : State) → IsOf st store.old
        → first_answer (λ homes h. seat_cause store.old.topology (with_more st homes) h) [] (row_homes row.now) ≡ Some e) }
{
    for fragment in Fragment::all().iter() {
        if let Some(seat) = row.homes[fragment.value as usize] {
            restore_home(store, row.stripe, *fragment, seat)?;
        }
    }
    Ok(())
}

/// Gives a fragment its home, and takes the seat. The store must have the stripe, and the fragment no home.
fn restore_home(
    store: &mut Store,
    stripe: StripeNo,
    fragment: Fragment,
    seat: Seat,
) -> Result<(), Cause>
    requires tied { IsTied store.old }
    requires there { IsTrue ((stored_in store.old.stripes).stripes stripe) }
    requires homeless { (stored_in store.old.stripes).homes stripe fragment.value ≡ None }
    ensures nodes { store.new.topology ≡ store.old.topology }
    ensures kept { OnOk result ((st : State) → IsOf st store.old → IsOf (with_home st stripe fragment seat) store.new) }
    ensures lawful { IsOk result → (st : State) → IsOf st store.old
        → seat_cause store.old.topology st (record { stripe = stripe; fragment = fragment; seat = seat }) ≡ None }
    ensures refused { IfErr result (λ e. (st : State) → IsOf st store.old
        → seat_cause store.old.topology st (record { stripe = stripe; fragment = fragment; seat = seat }) ≡ Some e) }
{
    if let Some(cause) = seat_refusal(store, stripe, fragment, seat) {
        return Err(cause);
    }
    store.table.take_slot(seat.node, seat.slot);
    store.stripes.set_home(stripe, fragment, seat);
    Ok(())
}
