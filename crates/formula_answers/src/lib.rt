//! What formulas over a sealed world show: the tuples for which they are forced, and the sieves of the arrows along which they are.
#![tactic(auto)]

mod answers;
mod interpreting;
mod stages;

pub use answers::{classified, shown, unforced};
pub use interpreting::interpreter;
