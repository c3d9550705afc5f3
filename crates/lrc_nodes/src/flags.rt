//! Flags by node number.

ghost use Rattle.std.specs.Prelude.{◌≡◌, ℕ, ◌<◌, ◌≤◌, false, length, get_or, map, IfOk};
ghost use Rattle.lrc_nodes.specs.States.{first_state};
ghost use Rattle.lrc_nodes.specs.Kept.{AreUp};

use lrc_topology::NodeInfo;
use std::alloc::{AllocError, Global};

/// The number of node numbers that there can be.
const NODE_NUMBERS: usize = 65_536;

/// By node number, whether one of the nodes has it. At first these are up.
pub(crate) fn by_number(alloc: Global, nodes: &Vec<NodeInfo>) -> Result<Vec<bool>, AllocError>
    ensures { IfOk result (λ v. AreUp (map first_state nodes.now.items) v.items) }
{
    let mut flags = none_set(alloc, NODE_NUMBERS)?;
    for node in nodes {
        flags[usize::from(node.number.value)] = true;
    }
    Ok(flags)
}

/// `count` flags, none of which is set.
fn none_set(alloc: Global, count: usize) -> Result<Vec<bool>, AllocError>
    ensures long { IfOk result (λ v. length v.items ≡ count) }
    ensures none { IfOk result (λ v. (k : ℕ) → get_or v.items k false ≡ false) }
{
    let mut flags = Vec::new(alloc);
    flags.resize(count, false)?;
    Ok(flags)
}
