// What typing a term gives.
use topos_model::{Row, Ty};

/// What is found in one pass over a term.
#[derive(Drop)]
pub struct Counted {
    /// The type of the term.
    pub ty: Ty,
    /// The types that the term counts, with repetitions: they and their parts are all. Of each subterm its type is there, and of each context the product.
    pub types: Row<Ty>,
}
