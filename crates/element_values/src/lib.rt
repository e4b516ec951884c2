//! Elements of sealed types and tuples of contexts, as values, from their numbers.
#![tactic(auto)]

mod elements;
mod pairs;
mod places;
mod sealed;
mod truth_values;
mod tuples;
mod values;

pub use elements::Elements;
pub use tuples::tuple_value;
pub use values::element_value;
