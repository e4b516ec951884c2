// What is made of a formula.
use presheaf_core::Functor;
use topos_model::Row;

/// A presheaf with its inclusion in another one: for each object the numbers of its elements there.
#[derive(Drop)]
pub struct Subobject {
    pub functor: Functor,
    pub inclusion: Row<Row<u32>>,
}
