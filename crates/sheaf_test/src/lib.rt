//! Sheaves: the first matching family without exactly one amalgamation.
#![tactic(auto)]

mod families;
mod gluing;
mod laws;
mod squares;
mod verdict;

pub use laws::sheaf_laws;
pub use verdict::{SheafVerdict, test};

#[cfg(test)]
mod tests;
