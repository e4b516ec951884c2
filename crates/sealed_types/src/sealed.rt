// A functor that is sealed in a store.
use functor_store::{FunctorId, FunctorStore};
use place_closures::Elements;

/// A functor that is sealed in a store, as elements by their numbers.
#[derive(Clone, Copy)]
pub struct Sealed<'a> {
    pub store: &'a FunctorStore,
    pub id: FunctorId,
}

impl<'a> Elements for Sealed<'a> {
    ghost use Rattle.sealed_types.specs.Sealed.{sizes_in, restrictions_in, IsObjectOf, IsElementOf};

    ghost size = { λ x. sizes_in x.store.now x.id };

    ghost restriction = { λ x. restrictions_in x.store.now x.id };

    ghost can_count = { λ x. IsObjectOf x.store.now x.id };

    ghost can_restrict = { λ x. IsElementOf x.store.now x.id };

    fn count(&self, c: u32) -> u32 {
        self.store.count(self.id, c)
    }

    fn restrict(&self, f: u32, x: u32) -> u32 {
        self.store.restrict(self.id, f, x)
    }
}
