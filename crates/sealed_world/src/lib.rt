//! A site with the presheaves that are declared over it and the types that are counted, sealed in a store.
#![tactic(auto)]

mod ends;
mod marks;
mod omega;
mod world;

pub use world::SealedWorld;
