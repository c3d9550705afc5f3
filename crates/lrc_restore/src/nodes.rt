ghost use Rattle.std.specs.Prelude.{◌≡◌, [], Some, None, IfErr, OnOk, IsOk};
ghost use Rattle.lrc_images.specs.Rising.{node_first, IsRising};
ghost use Rattle.lrc_images.specs.Causes.{node_cause};
ghost use Rattle.lrc_store.specs.Stores.{IsOf};
ghost use Rattle.lrc_restore.specs.Stages.{with_nodes, nodes_refusal};

use crate::error::RefusedRow;
use crate::order::{Ordered, is_out_of_order};
use lrc_images::{Cause, Image, NodeRow};
use lrc_store::Store;
use lrc_topology::Topology;

/// Sets the modes of the nodes of an image, and which are down.
pub(crate) fn restore_nodes(store: &mut Store, image: &Image) -> Result<(), RefusedRow>
    requires { IsOf (with_nodes image.now []) store.old }
    ensures nodes { store.new.topology ≡ store.old.topology }
    ensures kept { OnOk result (IsOf (with_nodes image.now image.now.nodes.items) store.new) }
    ensures lawful { IsOk result → nodes_refusal store.old.topology image.now ≡ None }
    ensures refused { IfErr result (λ r. nodes_refusal store.old.topology image.now ≡ Some (r.position, r.cause)) }
{
    let rows = image.nodes.as_slice();
    for (i, row) in rows.iter().enumerate() {
        if let Some(cause) = node_cause(&store.topology, &rows[..i], row) {
            let position = 1 + i;
            return Err(RefusedRow { position, cause });
        }
        store.set_state(row.node, row.mode, row.is_down);
    }
    Ok(())
}

/// Returns why a row can't come after these rows, which rise; `None` if it can.
fn node_cause(topology: &Topology, before: &[NodeRow], row: &NodeRow) -> Option<Cause>
    requires { IsRising node_first before.now }
    ensures { result ≡ node_cause topology.now before.now row.now }
{
    if is_out_of_order(before, row) {
        return Some(Cause::OutOfOrder);
    }
    if row.mode.is_active() && !row.is_down {
        return Some(Cause::SaysNothing);
    }
    if topology.node(row.node).is_none() {
        return Some(Cause::UnknownNode);
    }
    if row.mode.is_gone() && row.is_down {
        return Some(Cause::GoneAndDown);
    }
    None
}

impl Ordered for NodeRow {
    ghost use Rattle.std.proofs.Common.{rules};
    ghost use Rattle.std.proofs.lemmas.Grind.{common_steps};

    ghost first = { node_first };

    fn comes_before(&self, other: &NodeRow) -> bool {
        self.node.value < other.node.value
    }

    ghost joins = { Prim.search (rules, common_steps) };
}
