//! Functors that are sealed under distinct types, and the one that is being built, within a budget of cells.
#![tactic(auto)]

mod fault;
mod numbers;
mod store;
mod tables;
#[cfg(test)]
mod tests;

pub use fault::{Over, StoreFault};
pub use store::{FunctorId, FunctorStore};
