//! The tables of formulas: for each object a row with whether the formula is forced, for each tuple of the context.
#![tactic(auto)]

mod along;
mod formulas;

pub use along::{always, locally};
pub use formulas::{connect, equivalent, falsity, negate, quantified, truth};
