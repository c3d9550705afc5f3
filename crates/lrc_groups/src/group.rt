ghost use Rattle.std.specs.Prelude.{◌≡◌, ◌++◌, map, IfOk, OnOk};
ghost use Rattle.lrc_topology.specs.Nodes.{nodes_in};
ghost use Rattle.lrc_groups.specs.Groups.{nodes_in_fault, has_fault, named_nodes, numbers_in, has_named, first_lacking};

use crate::Named;
use lrc_code::{FaultNo, NodeNo, UpgradeNo};
use lrc_topology::Topology;
use std::alloc::{AllocError, Global};

/// The numbers of all nodes that are named, one after the other; those of a domain are in file order.
///
/// # Errors
///
/// Only for want of memory.
pub fn numbers_in(
    alloc: Global,
    topology: &Topology,
    named: &[Named],
) -> Result<Vec<NodeNo>, AllocError>
    ensures { IfOk result (λ numbers. numbers.items ≡ numbers_in topology.now named.now) }
{
    let mut numbers = Vec::new(alloc);
    for one in named {
        push_numbers(&mut numbers, topology, *one)?;
    }
    Ok(numbers)
}

/// Adds the number of a node that is named, or those of the nodes of a domain that is.
fn push_numbers(
    numbers: &mut Vec<NodeNo>,
    topology: &Topology,
    named: Named,
) -> Result<(), AllocError>
    ensures { OnOk result (numbers.new.items ≡ numbers.old.items ++ named_nodes topology.now named) }
{
    match named {
        Named::Node(number) => numbers.extend_from_slice(&[number]),
        Named::Fault(domain) => push_fault(numbers, topology, domain),
        Named::Upgrade(domain) => push_upgrade(numbers, topology, domain),
    }
}

/// Adds the numbers of the nodes of a fault domain, in file order.
fn push_fault(
    numbers: &mut Vec<NodeNo>,
    topology: &Topology,
    fault: FaultNo,
) -> Result<(), AllocError>
    ensures { OnOk result (numbers.new.items ≡ numbers.old.items ++ map (λ n. n.number) (nodes_in_fault topology.now fault)) }
{
    for node in topology.nodes() {
        if node.fault == fault {
            numbers.push(node.number)?;
        }
    }
    Ok(())
}

/// Adds the numbers of the nodes of an upgrade domain, in file order.
fn push_upgrade(
    numbers: &mut Vec<NodeNo>,
    topology: &Topology,
    upgrade: UpgradeNo,
) -> Result<(), AllocError>
    ensures { OnOk result (numbers.new.items ≡ numbers.old.items ++ map (λ n. n.number) (nodes_in topology.now upgrade)) }
{
    for node in topology.nodes_in(upgrade) {
        numbers.push(node.number)?;
    }
    Ok(())
}

/// The first that no node has: the number of no node, or a domain that no node is in.
pub fn first_lacking(topology: &Topology, named: &[Named]) -> Option<Named>
    ensures { result ≡ first_lacking topology.now named.now }
{
    for one in named {
        if !has_named(topology, *one) {
            return Some(*one);
        }
    }
    None
}

/// Whether a node has the number, or is in the domain.
fn has_named(topology: &Topology, named: Named) -> bool
    ensures { result ≡ has_named topology.now named }
{
    match named {
        Named::Node(number) => topology.node(number).is_some(),
        Named::Fault(domain) => has_fault(topology, domain),
        Named::Upgrade(domain) => topology.has_upgrade_domain(domain),
    }
}

fn has_fault(topology: &Topology, domain: FaultNo) -> bool
    ensures { result ≡ has_fault topology.now domain }
{
    for node in topology.nodes() {
        if node.fault == domain {
            return true;
        }
    }
    false
}
