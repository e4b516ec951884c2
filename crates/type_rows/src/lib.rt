//! Sealing a type in a store from the rows of its elements.
#![tactic(auto)]

mod seal;

pub use seal::seal_type;
