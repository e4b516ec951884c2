// What a construction of presheaves gives.
use crate::NatMap;
use presheaf_core::Functor;

/// A presheaf with one map, or more cells than there is room for.
#[derive(Drop)]
pub enum Made1 {
    /// The presheaf and its map.
    Made(Functor, NatMap),
    /// The presheaf has more cells than there is room for.
    Over,
}

/// A presheaf with two maps, or more cells than there is room for.
#[derive(Drop)]
pub enum Made2 {
    /// The presheaf and its maps.
    Made(Functor, NatMap, NatMap),
    /// The presheaf has more cells than there is room for.
    Over,
}
