//! The rows of the stripes of a store: of each stripe its homes and what they miss, and of each
//! node the stripes with a home on it.
#![tactic(auto)]

mod node_table;
mod row;
mod rows;
mod upgrading_domains;

pub use node_table::NodeTable;
pub use row::Row;
pub use rows::Rows;
pub use upgrading_domains::UpgradingDomains;
