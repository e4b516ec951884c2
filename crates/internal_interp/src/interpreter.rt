// What terms are interpreted over.
use functor_store::FunctorStore;
use omega_object::Omega;
use site_stages::Stages;
use topologies::Site;
use topos_model::{MapTable, Ty};
use truth_tables::{Numbers, Truths};

/// A site and its stages, a store in which all types are sealed that a term needs, the truth values where it needs them, and the maps that it may apply.
#[derive(Clone, Copy)]
pub struct Interpreter<'a> {
    pub site: &'a Site,
    pub stages: &'a Stages,
    pub store: &'a FunctorStore,
    pub omega: Option<&'a Omega>,
    pub maps: &'a [MapTable],
}

/// The type of a term, and the numbers of its values at each object and tuple.
#[derive(Drop)]
pub struct Valued {
    pub ty: Ty,
    pub numbers: Numbers,
}

/// What a term is interpreted by.
#[derive(Drop)]
pub enum Interpreted {
    /// A formula with a row of its own in the forcing table: where it is forced.
    Formula(Truths),
    Value(Valued),
}
