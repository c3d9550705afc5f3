//! The tables that `lrcman show`, `may-stop` and `may-lose` print.
#![tactic(auto)]

mod capacity;
mod domains;
mod forecast;
mod fragments;
mod health;
pub mod laws;
mod leases;
mod nodes;
mod status;
mod stripe_facts;
mod stripes;
mod view;
mod words;
mod work;

pub use domains::DomainKind;
pub use forecast::shown_forecast;
pub use view::{View, shown, tells_danger};
