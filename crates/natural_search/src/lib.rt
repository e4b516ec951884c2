//! The search for all rows of numbers, one at each place, that fit each other along a table of restrictions.
#![tactic(auto)]

mod chains;
mod domains;
mod free_places;
mod halving;
mod links;
mod order;
mod preimages;
mod residues;
mod rows;
mod search;
mod squares;

pub use halving::place_by;
pub use order::compare_rows;
pub use preimages::Preimages;
pub use rows::{FirstRows, FoundRows};
pub use search::{all_rows, first_rows, push_row};
pub use squares::Square;
