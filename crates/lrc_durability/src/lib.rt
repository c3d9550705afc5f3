//! What the levels, the ranks and the leases of a store say of the bytes of its stripes: laws that tie the rules, which
//! speak of sets of fragments, to the two codes over bytes.
//!
//! `specs/Sources` says which fragments the worker of a lease reads. All else is of `lrc_rules` and `lrc_field`.
#![tactic(auto)]

pub mod laws;
