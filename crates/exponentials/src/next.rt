// Sealing a type whose parts are sealed, where it is not there.
ghost use Rattle.std.specs.Prelude.{◌≡◌, ◌∷◌, [], ◌<◌, None, List, length};
ghost use Rattle.topos_model.specs.declared.ty.Ty.{One, Two, Pow, Fun};
ghost use Rattle.topos_model.specs.types.Types.{Presheaf};
ghost use Rattle.functor_store.specs.Store.{functor_at};
ghost use Rattle.functor_store.specs.Faithful.{Holds, IsFaithful};
ghost use Rattle.exponentials.specs.Needed.{IsPlaceOf, IsOutcome};

use function_objects::seal_function;
use functor_store::{FunctorId, FunctorStore, StoreFault};
use power_objects::seal_power;
use product_objects::{seal_one, seal_product};
use std::alloc::Global;
use topologies::Site;
use topos_model::Ty;

/// The place of a type that is there.
pub(crate) fn place_of(store: &FunctorStore, ty: &Ty) -> FunctorId
    requires held { Holds store.now ty.now }
    ensures place { IsPlaceOf store.now result ty.now }
{
    match store.find(ty) {
        Some(id) => id,
        None => unreachable!(),
    }
}

pub(crate) fn one(
    alloc: Global,
    store: &mut FunctorStore,
    site: &Site,
    ty: &Ty,
) -> Result<FunctorId, StoreFault>
    requires idle { store.old.building ≡ None }
    requires faithful { (functors : List Presheaf) × IsFaithful site.now functors store.old }
    requires key { ty.now ≡ One }
    ensures outcome { IsOutcome site.now (ty.now ∷ []) ty.now store.old store.new result }
{
    match store.find(ty) {
        Some(id) => Ok(id),
        None => seal_one(alloc, store, site),
    }
}

pub(crate) fn product(
    alloc: Global,
    store: &mut FunctorStore,
    site: &Site,
    ty: &Ty,
    s: FunctorId,
    t: FunctorId,
) -> Result<FunctorId, StoreFault>
    requires idle { store.old.building ≡ None }
    requires faithful { (functors : List Presheaf) × IsFaithful site.now functors store.old }
    requires first { s < length store.old.sealed }
    requires second { t < length store.old.sealed }
    requires key { ty.now ≡ Two (functor_at store.old.sealed s).key (functor_at store.old.sealed t).key }
    ensures outcome { IsOutcome site.now (ty.now ∷ []) ty.now store.old store.new result }
{
    match store.find(ty) {
        Some(id) => Ok(id),
        None => seal_product(alloc, store, site, ty, s, t),
    }
}

pub(crate) fn power(
    alloc: Global,
    store: &mut FunctorStore,
    site: &Site,
    ty: &Ty,
    t: FunctorId,
) -> Result<FunctorId, StoreFault>
    requires idle { store.old.building ≡ None }
    requires faithful { (functors : List Presheaf) × IsFaithful site.now functors store.old }
    requires part { t < length store.old.sealed }
    requires key { ty.now ≡ Pow (functor_at store.old.sealed t).key }
    ensures outcome { IsOutcome site.now (ty.now ∷ []) ty.now store.old store.new result }
{
    match store.find(ty) {
        Some(id) => Ok(id),
        None => seal_power(alloc, store, site, ty, t),
    }
}

pub(crate) fn function(
    alloc: Global,
    store: &mut FunctorStore,
    site: &Site,
    ty: &Ty,
    s: FunctorId,
    t: FunctorId,
) -> Result<FunctorId, StoreFault>
    requires idle { store.old.building ≡ None }
    requires faithful { (functors : List Presheaf) × IsFaithful site.now functors store.old }
    requires first { s < length store.old.sealed }
    requires second { t < length store.old.sealed }
    requires key { ty.now ≡ Fun (functor_at store.old.sealed s).key (functor_at store.old.sealed t).key }
    ensures outcome { IsOutcome site.now (ty.now ∷ []) ty.now store.old store.new result }
{
    match store.find(ty) {
        Some(id) => Ok(id),
        None => seal_function(alloc, store, site, ty, s, t),
    }
}
