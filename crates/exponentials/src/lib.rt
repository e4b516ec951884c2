//! Each type of the language, sealed in a store with its parts.
#![tactic(auto)]

mod next;
mod parts;
mod sealing;
#[cfg(test)]
mod tests;

pub use sealing::need;
