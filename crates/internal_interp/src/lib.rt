//! Terms of the internal language by tables of numbers.
#![tactic(auto)]

mod abstractions;
mod binding;
mod constants;
mod context;
mod conversions;
mod forms;
mod formulas;
mod images;
mod interpreter;
mod products;
mod readings;
mod scopes;
mod terms;
mod variables;
mod widths;

pub use context::Context;
pub use interpreter::{Interpreted, Interpreter, Valued};
pub use scopes::{formula_truths, scope, term_values};
pub use terms::interpret_term;
pub use variables::variable_table;
