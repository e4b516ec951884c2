// Types that are sealed.
ghost use Rattle.std.specs.Prelude.{◌≡◌, ◌<◌, List};
ghost use Rattle.topos_model.specs.types.Types.{Presheaf};
ghost use Rattle.functor_store.specs.Faithful.{Holds};
ghost use Rattle.term_tables.specs.Parts.{IsSealed};
ghost use Rattle.element_values.specs.Known.{Knows, count_of};

use crate::Elements;
use functor_store::{FunctorId, FunctorStore};
use topos_model::Ty;

/// The place of a type that is sealed.
pub(crate) fn place_of(store: &FunctorStore, ty: &Ty) -> FunctorId
    requires held { Holds store.now ty.now }
    ensures place { IsSealed store.now ty.now result }
{
    match store.find(ty) {
        Some(id) => id,
        None => unreachable!(),
    }
}

/// How many elements a sealed type has at c.
pub(crate) fn count(elements: &Elements<'_>, ty: &Ty, c: u32) -> u32
    requires known { (functors : List Presheaf) × Knows elements.now functors }
    requires held { Holds elements.now.store.now ty.now }
    requires object { c < elements.now.site.now.category.objects }
    ensures { (functors : List Presheaf) → Knows elements.now functors → result ≡ count_of elements.now functors ty.now c }
{
    let store = elements.store;
    store.count(place_of(store, ty), c)
}
