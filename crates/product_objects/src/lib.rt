//! The one-element type and the products of types, sealed in a store.
#![tactic(auto)]

mod one;
mod pairs;
mod product;

pub use one::seal_one;
pub use product::seal_product;
