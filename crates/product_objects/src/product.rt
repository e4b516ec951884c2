// Products of sealed types.
ghost use Rattle.std.specs.Prelude.{◌≡◌, ◌+◌, ◌<◌, None, List, length, IfOk, OnOk, OnErr};
ghost use Rattle.topos_model.specs.declared.ty.Ty.{Two};
ghost use Rattle.topos_model.specs.types.Types.{Presheaf};
ghost use Rattle.topos_model.specs.statements.Cells.{cells_of};
ghost use Rattle.functor_store.specs.Store.{cells, functor_at, IsFreeKey};
ghost use Rattle.functor_store.specs.Faithful.{IsFaithful};
ghost use Rattle.sealed_functors.specs.Rows.{IsOverExactly};
ghost use Rattle.type_rows.specs.TypeRows.{IsAdded};

use crate::pairs::{all_pair_rows, pairs_fit};
use functor_store::{FunctorId, FunctorStore, StoreFault};
use std::alloc::Global;
use topologies::Site;
use topos_model::Ty;
use type_rows::seal_type;

/// Seals the product of two types that are sealed: at each object the pairs of elements, lexicographic, which restrict in both parts. `Over` says that their cells
/// and those of the store together exceed the budget. After a fault the store is as before.
pub fn seal_product(
    alloc: Global,
    store: &mut FunctorStore,
    site: &Site,
    key: &Ty,
    s: FunctorId,
    t: FunctorId,
) -> Result<FunctorId, StoreFault>
    requires idle { store.old.building ≡ None }
    requires faithful { (functors : List Presheaf) × IsFaithful site.now functors store.old }
    requires first { s < length store.old.sealed }
    requires second { t < length store.old.sealed }
    requires key { key.now ≡ Two (functor_at store.old.sealed s).key (functor_at store.old.sealed t).key }
    requires free { IsFreeKey store.old.sealed key.now }
    ensures ok { OnOk result (IsAdded key.now store.old store.new) }
    ensures place { IfOk result (λ id. id ≡ length store.old.sealed) }
    ensures err { OnErr result (store.new ≡ store.old) }
    ensures faithful { (functors : List Presheaf) → IsFaithful site.now functors store.old → IsFaithful site.now functors store.new }
    ensures over { (functors : List Presheaf) → IsFaithful site.now functors store.old → IsOverExactly result (store.old.budget < cells store.old + cells_of site.now functors key.now) }
{
    let cat = site.cat();
    cat.laws();
    let room = store.room();
    if !pairs_fit(cat, store, s, t, room) {
        return Err(StoreFault::Over);
    }
    let rows = all_pair_rows(alloc, cat, store, s, t)?;
    seal_type(alloc, store, key, rows.as_slice())
}
