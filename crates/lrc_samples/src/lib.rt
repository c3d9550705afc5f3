//! A store that the tests of several crates use.
#![tactic(auto)]

ghost use Rattle.std.specs.Prelude.{◌≡◌, IfOk, IfErr};
ghost use Rattle.lrc_topology.specs.declared.error.TopologyError.TheVariants as error;
ghost use Rattle.lrc_samples.specs.Stores.{twenty};

mod seats;

use lrc_topology::{Topology, TopologyError};
pub use seats::{first_seats, second_seats};
use std::alloc::Global;

const TWENTY_NODES: &str = "\
node = [
    { number = 0, fault = 0, upgrade = 0, slots = 4 },
    { number = 1, fault = 1, upgrade = 1, slots = 4 },
    { number = 2, fault = 2, upgrade = 2, slots = 4 },
    { number = 3, fault = 3, upgrade = 3, slots = 4 },
    { number = 4, fault = 4, upgrade = 4, slots = 4 },
    { number = 5, fault = 5, upgrade = 5, slots = 4 },
    { number = 6, fault = 6, upgrade = 6, slots = 4 },
    { number = 7, fault = 7, upgrade = 7, slots = 4 },
    { number = 8, fault = 8, upgrade = 8, slots = 4 },
    { number = 9, fault = 9, upgrade = 9, slots = 4 },
    { number = 10, fault = 10, upgrade = 0, slots = 4 },
    { number = 11, fault = 11, upgrade = 1, slots = 4 },
    { number = 12, fault = 12, upgrade = 2, slots = 4 },
    { number = 13, fault = 13, upgrade = 3, slots = 4 },
    { number = 14, fault = 14, upgrade = 4, slots = 4 },
    { number = 15, fault = 15, upgrade = 5, slots = 4 },
    { number = 16, fault = 16, upgrade = 6, slots = 4 },
    { number = 17, fault = 17, upgrade = 7, slots = 4 },
    { number = 18, fault = 18, upgrade = 8, slots = 4 },
    { number = 19, fault = 19, upgrade = 9, slots = 4 },
]
";

/// Returns twenty nodes with four slots each, every one in its own fault domain, in ten upgrade domains. The only
/// error is out of memory.
pub fn twenty_nodes(alloc: Global) -> Result<Topology, TopologyError>
    ensures nodes { IfOk result (λ t. t ≡ twenty) }
    ensures err { IfErr result (λ e. e ≡ error.OutOfMemory) }
{
    Topology::read(alloc, TWENTY_NODES.as_bytes())
}
