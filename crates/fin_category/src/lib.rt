//! Finite categories, checked: composites that are left out are filled, and the first fault of what is listed is found.
#![tactic(auto)]

mod arrow_iter;
mod associativity;
mod category;
mod ends;
mod fault;
mod filling;
mod into;
mod laws;
mod listed;
mod listing;
mod mask;
mod tables;

pub use arrow_iter::ArrowIter;
pub use category::{Cat, MAX_ARROWS, MAX_OBJECTS};
pub use ends::all_ends;
pub use fault::CatFault;
pub use laws::category_laws;
pub use listed::is_listing;
pub use mask::ArrowMask;
