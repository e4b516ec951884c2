//! What terms and types make: the map of a term, the presheaf of a type by the numbers of its elements, the subobject of a formula.
#![tactic(auto)]

mod made;
mod presheaves;
mod subobjects;
mod term_maps;
mod values;

pub use made::Subobject;
pub use presheaves::{identity_rows, type_presheaf};
pub use subobjects::subobject;
pub use term_maps::term_map;
pub use values::type_values;
