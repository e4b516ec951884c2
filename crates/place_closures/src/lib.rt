//! Sets of places that are closed under restriction and under covers. A place is an arrow into an object and an element over its domain.
#![tactic(auto)]

mod elements;
mod passes;
mod tables;
mod turned;

pub use elements::{Elements, OneEach};
pub use passes::TwoPasses;
pub use tables::{pair_passes, pair_starts};
