// Powers of sealed types.
ghost use Rattle.std.specs.Prelude.{◌≡◌, ℕ, ◌+◌, ◌<◌, None, List, length, IfOk, OnOk, OnErr};
ghost use Rattle.topos_model.specs.declared.ty.Ty.{Pow};
ghost use Rattle.topos_model.specs.types.Types.{Presheaf};
ghost use Rattle.topos_model.specs.statements.Cells.{cells_of};
ghost use Rattle.functor_store.specs.Store.{cells, functor_at, IsFreeKey};
ghost use Rattle.functor_store.specs.Faithful.{IsFaithful};
ghost use Rattle.sealed_functors.specs.Rows.{rows_at, IsOverExactly};
ghost use Rattle.sealed_types.specs.Sealed.{sizes_in, restrictions_in};
ghost use Rattle.type_rows.specs.TypeRows.{IsAdded};
ghost use Rattle.power_objects.specs.SubsetRows.{AreSubsetRows, subset_cells};

use crate::listing::all_sets;
use crate::subsets::all_subset_rows;
use functor_store::{FunctorId, FunctorStore, StoreFault};
use sealed_functors::ElementRows;
use sealed_types::Sealed;
use std::alloc::Global;
use topologies::Site;
use topos_model::{Row, Ty};
use type_rows::seal_type;

// The rows of all closed subsets of a sealed type, where their cells are within what the budget leaves.
fn power_rows(
    alloc: Global,
    store: &FunctorStore,
    site: &Site,
    t: FunctorId,
) -> Result<Row<ElementRows>, StoreFault>
    requires faithful { (functors : List Presheaf) × IsFaithful site.now functors store.now }
    requires part { t < length store.now.sealed }
    ensures objects { IfOk result (λ rows. length rows ≡ site.now.category.objects) }
    ensures rows { IfOk result (λ rows. (c : ℕ) → c < site.now.category.objects → AreSubsetRows site.now (sizes_in store.now t) (restrictions_in store.now t) c (rows_at rows c)) }
    ensures over { IsOverExactly result (store.now.budget < cells store.now + subset_cells site.now (sizes_in store.now t) (restrictions_in store.now t)) }
{
    let cat = site.cat();
    cat.laws();
    let room = store.room();
    let x = Sealed { store, id: t };
    match all_sets(alloc, site, &x, room)? {
        None => Err(StoreFault::Over),
        Some(all) => Ok(all_subset_rows(alloc, site, &x, all.as_slice())?),
    }
}

/// Seals the power of a type that is sealed: at each object the sets of pairs of an arrow into it and an element over the domain that are closed under restriction and
/// under covers, in the order of sublists (Mac Lane and Moerdijk, chapter IV). The row of a set has 1 or 0 for each pair. `Over` says that their cells and those of
/// the store together exceed the budget, and comes without listing more sets than the budget has room for. After a fault the store is as before.
pub fn seal_power(
    alloc: Global,
    store: &mut FunctorStore,
    site: &Site,
    key: &Ty,
    t: FunctorId,
) -> Result<FunctorId, StoreFault>
    requires idle { store.old.building ≡ None }
    requires faithful { (functors : List Presheaf) × IsFaithful site.now functors store.old }
    requires part { t < length store.old.sealed }
    requires key { key.now ≡ Pow (functor_at store.old.sealed t).key }
    requires free { IsFreeKey store.old.sealed key.now }
    ensures ok { OnOk result (IsAdded key.now store.old store.new) }
    ensures place { IfOk result (λ id. id ≡ length store.old.sealed) }
    ensures err { OnErr result (store.new ≡ store.old) }
    ensures faithful { (functors : List Presheaf) → IsFaithful site.now functors store.old → IsFaithful site.now functors store.new }
    ensures over { (functors : List Presheaf) → IsFaithful site.now functors store.old → IsOverExactly result (store.old.budget < cells store.old + cells_of site.now functors key.now) }
{
    site.cat().laws();
    let _topology = site.top();
    match power_rows(alloc, store, site, t) {
        Err(fault) => Err(fault),
        Ok(rows) => seal_type(alloc, store, key, rows.as_slice()),
    }
}
