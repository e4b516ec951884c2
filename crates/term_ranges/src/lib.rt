//! Whether the numbers in types and terms are in range: those of functors and of maps.
#![tactic(auto)]

mod laws;
mod ranges;

pub use laws::range_laws;
pub use ranges::{is_term_in_range, is_type_in_range};
