//! The tables by which formulas and terms are computed: for each object a row with one truth value, or one number, for each tuple.
#![tactic(auto)]

mod abstraction;
mod arrows;
mod connectives;
mod entries;
mod quantifiers;
mod tables;
mod tuple_tables;
mod variables;

pub use abstraction::{abstractions, element_number};
pub use arrows::everywhere;
pub use connectives::{Connective, agreeing, combine, constant, equal, indicators};
pub use entries::{images, members, values};
pub use quantifiers::{Quantifier, quantify};
pub use tables::{Numbers, Truths, bit, number, row_at, table};
pub use tuple_tables::TupleTable;
pub use variables::{first_parts, last_variable, outer_variable, pairs, second_parts};
