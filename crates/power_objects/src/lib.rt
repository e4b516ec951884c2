//! The power of a type, sealed in a store: its closed subsets, for every topology.
#![tactic(auto)]

mod listing;
mod power;
mod search;
mod subsets;
mod under;

pub use power::seal_power;
