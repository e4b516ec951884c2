//! The truth values of a site: its closed sieves, by their numbers, and the operations on them.
#![tactic(auto)]

mod listing;
mod need;
mod omega;
mod search;
mod store;
mod tables;

pub use omega::Omega;
pub use store::empty_store;
