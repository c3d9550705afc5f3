//! The commands: the reply and the change of each.

pub(crate) mod leases;
mod next;
mod nodes;
mod stripes;
mod ticks;
mod upgrades;
