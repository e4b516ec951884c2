//! The theorem on values and forcing: terms are natural maps between types, forcing is monotone and local, and the value of a formula is the sieve along which it is forced.
#![tactic(auto)]

mod laws;

pub use laws::forcing_laws;
