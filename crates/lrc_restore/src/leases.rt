ghost use Rattle.std.specs.Prelude.{◌≡◌, ◌+◌, ◌&&◌, nat_lt, nat_le, List, [], Some, None, IfErr, OnOk, IsOk};
ghost use Rattle.lrc_rules.specs.Leases.{term};
ghost use Rattle.lrc_images.specs.declared.image.Image.{Image};
ghost use Rattle.lrc_images.specs.Images.{earlier, image_state, row_lease};
ghost use Rattle.lrc_images.specs.Rising.{lease_first, IsRising};
ghost use Rattle.lrc_images.specs.Causes.{lease_cause, with_leases};
ghost use Rattle.lrc_rules.specs.declared.entry.Entry.{Entry};
ghost use Rattle.lrc_store.specs.Stores.{IsOf, IsTied, AreGrantsOf};
ghost use Rattle.lrc_restore.specs.Stages.{leases_refusal};

use crate::error::RefusedRow;
use crate::order::{Ordered, is_out_of_order};
use crate::position::leases_from;
use crate::seats::seat_refusal;
use lrc_images::{Cause, Image, LeaseRow};
use lrc_leases::Grants;
use lrc_rules::Lease;
use lrc_store::Store;

/// Adds the leases of an image. Their epochs are these counts.
pub(crate) fn restore_leases(
    store: &mut Store,
    grants: &Grants,
    image: &Image,
) -> Result<(), RefusedRow>
    requires kept { IsOf (with_leases image.now []) store.old }
    requires grants { AreGrantsOf (earlier image.now.grants.items) grants.now }
    ensures nodes { store.new.topology ≡ store.old.topology }
    ensures kept { OnOk result (IsOf (image_state image.now) store.new) }
    ensures lawful { IsOk result → leases_refusal store.old.topology image.now ≡ None }
    ensures refused { IfErr result (λ r. leases_refusal store.old.topology image.now ≡ Some (r.position, r.cause)) }
{
    let rows = image.leases.as_slice();
    for (index, row) in rows.iter().enumerate() {
        if let Some(cause) = lease_cause(store, grants, &rows[..index], row) {
            let position = leases_from(image) + index;
            return Err(RefusedRow { position, cause });
        }
        store.add_lease(&lease_of(grants, row));
    }
    Ok(())
}

/// Returns why the lease of a row can't come after those of these rows, which rise; `None` if it can.
fn lease_cause(store: &Store, grants: &Grants, before: &[LeaseRow], row: &LeaseRow) -> Option<Cause>
    requires tied { IsTied store.now }
    requires rising { IsRising lease_first before.now }
    ensures { (i : Image) → IsOf (with_leases i before.now) store.now → AreGrantsOf (earlier i.grants.items) grants.now
        → result ≡ lease_cause store.now.topology i before.now row.now }
{
    if is_out_of_order(before, row) {
        return Some(Cause::OutOfOrder);
    }
    if !store.stripes.contains(row.stripe) {
        return Some(Cause::UnknownStripe);
    }
    if grants.count(row.stripe, row.fragment) == 0 {
        return Some(Cause::NeverGranted);
    }
    if !is_running(store, row.expiry) {
        return Some(Cause::WrongExpiry);
    }
    seat_refusal(store, row.stripe, row.fragment, row.target)
}

/// Whether a lease with this end has not ended yet, and ends within a term.
fn is_running(store: &Store, expiry: u32) -> bool
    ensures { result ≡ (nat_lt store.now.clock.value expiry && nat_le expiry (store.now.clock.value + term)) }
{
    store.clock.get() < expiry && expiry <= store.clock.end_of_term()
}

impl Ordered for LeaseRow {
    ghost use Rattle.std.proofs.Common.{rules};
    ghost use Rattle.std.proofs.lemmas.Grind.{common_steps};

    ghost first = { lease_first };

    fn comes_before(&self, other: &LeaseRow) -> bool {
        self.stripe.value < other.stripe.value
            || self.stripe.value == other.stripe.value && self.fragment.value < other.fragment.value
    }

    ghost joins = { Prim.search (rules, common_steps) };
}

/// The lease of a row. Its epoch is the count of its fragment.
fn lease_of(grants: &Grants, row: &LeaseRow) -> Lease
    ensures { (past : List Entry) → AreGrantsOf past grants.now → result ≡ row_lease past row.now }
{
    Lease {
        stripe: row.stripe,
        fragment: row.fragment,
        holder: row.holder,
        target: row.target,
        epoch: grants.count(row.stripe, row.fragment),
        expiry: row.expiry,
    }
}
