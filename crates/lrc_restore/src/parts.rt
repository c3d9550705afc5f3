ghost use Rattle.std.specs.Prelude.{◌≡◌, Some, None, IfOk, IfErr, OnOk, IsOk};
ghost use Rattle.lrc_leases.specs.Granted.{none_granted, granted_in};
ghost use Rattle.lrc_rules.specs.States.{opening};
ghost use Rattle.lrc_images.specs.Images.{earlier, image_state};
ghost use Rattle.lrc_images.specs.Causes.{first_cause};
ghost use Rattle.lrc_store.specs.Stores.{IsOf, AreGrantsOf};
ghost use Rattle.lrc_restore.specs.Refused.{IsRefusedFor};

use crate::BeginError;
use crate::error::RefusedRow;
use crate::grants::restore_grants;
use crate::head::restore_head;
use crate::leases::restore_leases;
use crate::nodes::restore_nodes;
use crate::stripes::restore_stripes;
use lrc_images::Image;
use lrc_leases::Grants;
use lrc_store::Store;
use lrc_topology::Topology;
use std::alloc::Global;

/// Makes the store of an image's state over these nodes, and the number of leases granted for each fragment.
///
/// # Errors
///
/// `Refused` with the first row that is wrong and why, else only `OutOfMemory`.
pub fn restore(
    alloc: Global,
    topology: Topology,
    image: &Image,
) -> Result<(Box<Store>, Grants), BeginError>
    ensures nodes { IfOk result (λ r. r.0.value.topology ≡ topology) }
    ensures store { IfOk result (λ r. IsOf (image_state image.now) r.0.value) }
    ensures grants { IfOk result (λ r. AreGrantsOf (earlier image.now.grants.items) r.1) }
    ensures lawful { IsOk result → first_cause topology image.now ≡ None }
    ensures refused { IfErr result (IsRefusedFor (first_cause topology image.now)) }
{
    let store = Store::new(alloc, topology)?;
    let mut store = Box::new(alloc, store)?;
    let mut grants = Grants::new(alloc)?;
    restore_rows(&mut store, &mut grants, image)?;
    Ok((store, grants))
}

/// Takes the rows of an image into the store of an empty state.
fn restore_rows(store: &mut Store, grants: &mut Grants, image: &Image) -> Result<(), RefusedRow>
    requires opening { IsOf opening store.old }
    requires ungranted { granted_in grants.old ≡ none_granted }
    ensures nodes { store.new.topology ≡ store.old.topology }
    ensures store { OnOk result (IsOf (image_state image.now) store.new) }
    ensures grants { OnOk result (AreGrantsOf (earlier image.now.grants.items) grants.new) }
    ensures lawful { IsOk result → first_cause store.old.topology image.now ≡ None }
    ensures refused { IfErr result (λ r. first_cause store.old.topology image.now ≡ Some (r.position, r.cause)) }
{
    restore_head(store, image)?;
    restore_nodes(store, image)?;
    restore_stripes(store, image)?;
    restore_grants(grants, image)?;
    restore_leases(store, grants, image)
}
