//! The nodes of each upgrade domain.

ghost use Rattle.std.specs.Prelude.{◌≡◌, ◌≤◌, length, replicate, false, IfOk};
ghost use Rattle.lrc_nodes.specs.Kept.{AreDomains};

use lrc_bits::BitSet;
use lrc_topology::NodeInfo;
use std::alloc::{AllocError, Global};

/// For each upgrade domain, the positions of its nodes in the list.
pub(crate) fn positions_by_upgrade(
    alloc: Global,
    nodes: &Vec<NodeInfo>,
) -> Result<Vec<BitSet<8>>, AllocError>
    requires { length nodes.now.items ≤ 512 }
    ensures { IfOk result (λ v. AreDomains nodes.now.items (length nodes.now.items) v.items) }
{
    let mut domains = empty_sets(alloc)?;
    for position in 0..nodes.len() {
        let domain = nodes[position].upgrade.value as usize;
        let set = &mut domains[domain];
        set.insert(position);
    }
    Ok(domains)
}

/// An empty set for each upgrade domain.
fn empty_sets(alloc: Global) -> Result<Vec<BitSet<8>>, AllocError>
    ensures { IfOk result (λ v. v.items ≡ replicate 256 (replicate 512 false)) }
{
    let mut sets = Vec::with_capacity(alloc, 256)?;
    for _ in 0..256usize {
        sets.push(BitSet::new())?;
    }
    Ok(sets)
}
