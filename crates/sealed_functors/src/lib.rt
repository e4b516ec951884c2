//! Functors that are sealed in a store from the rows of their elements.
#![tactic(auto)]

mod rows;
mod seal;

pub use rows::ElementRows;
pub use seal::seal_rows;
