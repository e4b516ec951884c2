//! The tables of terms: for each object a row with the number of the value, or with the truth value, at each tuple of the context.
#![tactic(auto)]

mod binders;
mod products;
mod readings;
mod truth_values;

pub use binders::{comprehension_table, function_table};
pub use products::{first_table, pair_table, second_table, star_table};
pub use readings::{equal_table, evaluation_table, image_table, membership_table};
pub use truth_values::{formula_table, truth_value_table};
