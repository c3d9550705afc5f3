//! Laws of the definitions in `specs/`. Each law is the contract of a function that does nothing.

pub mod boards;
pub mod histories;
pub mod images;
pub mod leases;
pub mod nodes;
pub mod placing;
pub mod repair;
pub mod states;
pub mod upgrades;
