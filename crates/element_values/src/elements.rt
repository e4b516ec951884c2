// What elements are read from.
use functor_store::FunctorStore;
use omega_object::Omega;
use topologies::Site;

/// A site, a store in which types are sealed with their parts, and the truth values of the site where one of these types has them.
#[derive(Clone, Copy)]
pub struct Elements<'a> {
    pub site: &'a Site,
    pub store: &'a FunctorStore,
    pub omega: Option<&'a Omega>,
}
