ghost use Rattle.std.specs.Prelude.{◌≡◌, nat_eq, IfOk};
ghost use Rattle.std.specs.Set.{distinct_count};
ghost use Rattle.lrc_warnings.specs.Warnings.{domains_of};

use lrc_topology::Topology;
use std::alloc::{AllocError, Global};

/// How many different domains nodes are in.
#[derive(Clone, Copy)]
pub struct Domains {
    /// Fault domains.
    pub faults: usize,
    /// Upgrade domains.
    pub upgrades: usize,
}

/// How many different domains the nodes of a topology are in.
pub(crate) fn count_domains(alloc: Global, topology: &Topology) -> Result<Domains, AllocError>
    ensures { IfOk result (λ domains. domains ≡ domains_of topology.now) }
{
    let faults: Vec<u8> = topology
        .nodes()
        .map(|node| node.fault.value)
        .collect(alloc)?;
    let upgrades: Vec<u8> = topology
        .nodes()
        .map(|node| node.upgrade.value)
        .collect(alloc)?;
    Ok(Domains {
        faults: count_different(&faults),
        upgrades: count_different(&upgrades),
    })
}

/// How many different numbers there are: each is counted where it comes last.
fn count_different(numbers: &[u8]) -> usize
    ensures { result ≡ distinct_count nat_eq numbers.now }
{
    let mut count = 0;
    for place in 0..numbers.len() {
        if !numbers[place + 1..].contains(&numbers[place]) {
            count += 1;
        }
    }
    count
}
