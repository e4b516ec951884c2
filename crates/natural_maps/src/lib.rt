//! Natural maps between presheaves of finite sets: the check of a listed one, values, composites and laws; and what a construction of presheaves gives.
#![tactic(auto)]

mod bounds;
mod components;
mod fault;
mod images;
mod laws;
mod listing;
mod made;
mod map;
mod naturality;
mod places;
mod room;
mod squares;

pub use fault::MapFault;
pub use laws::map_laws;
pub use listing::{Listing, list_maps};
pub use made::{Made1, Made2};
pub use map::NatMap;
pub use room::{MAX_ROOM, lengths, sizes_within};

#[cfg(test)]
mod tests;
