//! Function types: the natural assignments of one sealed type to another, listed and sealed in a store.
#![tactic(auto)]

mod elements;
mod listing;
mod numbers;
mod seal;
mod squares;
mod starts;

pub use seal::seal_function;
