ghost use Rattle.std.specs.Prelude.{◌≡◌, [], Some, None, IfErr, OnOk, IsOk};
ghost use Rattle.lrc_rules.specs.States.{opening};
ghost use Rattle.lrc_images.specs.Causes.{head_cause};
ghost use Rattle.lrc_store.specs.Stores.{IsOf};
ghost use Rattle.lrc_restore.specs.Stages.{with_nodes, head_refusal};

use crate::error::RefusedRow;
use lrc_images::{Cause, Image, MOST_ENTRIES, MOST_TICKS};
use lrc_store::{Clock, Store};
use lrc_topology::Topology;

/// Sets the upgrading domain and the clock of an image.
pub(crate) fn restore_head(store: &mut Store, image: &Image) -> Result<(), RefusedRow>
    requires { IsOf opening store.old }
    ensures nodes { store.new.topology ≡ store.old.topology }
    ensures kept { OnOk result (IsOf (with_nodes image.now []) store.new) }
    ensures lawful { IsOk result → head_refusal store.old.topology image.now ≡ None }
    ensures refused { IfErr result (λ r. head_refusal store.old.topology image.now ≡ Some (r.position, r.cause)) }
{
    if let Some(cause) = head_cause(&store.topology, image) {
        return Err(RefusedRow { position: 0, cause });
    }
    if let Some(domain) = image.upgrading {
        store.upgrade(domain);
    }
    store.clock = Clock::at(image.clock);
    Ok(())
}

/// Returns why what an image says beside its rows is wrong; `None` if it is not.
fn head_cause(topology: &Topology, image: &Image) -> Option<Cause>
    ensures { result ≡ head_cause topology.now image.now }
{
    if let Some(domain) = image.upgrading {
        if !topology.has_upgrade_domain(domain) {
            return Some(Cause::UnknownDomain);
        }
    }
    if image.before > MOST_ENTRIES {
        return Some(Cause::TooManyEntries);
    }
    if image.clock > MOST_TICKS {
        return Some(Cause::TooManyTicks);
    }
    None
}
