//! Presheaves that are declared by number, sealed in a store.
#![tactic(auto)]

mod named;
mod rows;

pub use named::seal_functor;
