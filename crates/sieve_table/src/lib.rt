//! Sieves on the objects of a finite category, as sets of arrows. No call takes memory.
#![tactic(auto)]

mod laws;
mod sieve;

pub use laws::sieve_laws;
pub use sieve::Sieve;
