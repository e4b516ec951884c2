// Function types, sealed in a store.
ghost use Rattle.std.specs.Prelude.{◌≡◌, ◌+◌, ◌<◌, None, List, length, IfOk, OnOk, OnErr};
ghost use Rattle.topos_model.specs.declared.ty.Ty.{Fun};
ghost use Rattle.topos_model.specs.types.Types.{Presheaf};
ghost use Rattle.topos_model.specs.statements.Cells.{cells_of};
ghost use Rattle.functor_store.specs.Store.{cells, functor_at, IsFreeKey};
ghost use Rattle.functor_store.specs.Faithful.{IsFaithful};
ghost use Rattle.sealed_functors.specs.Rows.{IsOverExactly};
ghost use Rattle.type_rows.specs.TypeRows.{IsAdded};

use crate::elements::all_element_rows;
use functor_store::{FunctorId, FunctorStore, StoreFault};
use std::alloc::Global;
use topologies::Site;
use topos_model::Ty;
use type_rows::seal_type;

/// Seals the type of functions from one type to another, which are sealed: at each object the natural assignments of a value to each pair of an arrow into the object
/// and an element over its domain, in lexicographic order (Mac Lane and Moerdijk, Sheaves in Geometry and Logic, I). The row of an element has the number of the value at
/// each of these places. `Over` says that their cells and those of the store together exceed the budget; one after another is listed, and no more than fit. After a
/// fault the store is as before.
pub fn seal_function(
    alloc: Global,
    store: &mut FunctorStore,
    site: &Site,
    key: &Ty,
    s: FunctorId,
    t: FunctorId,
) -> Result<FunctorId, StoreFault>
    requires idle { store.old.building ≡ None }
    requires faithful { (functors : List Presheaf) × IsFaithful site.now functors store.old }
    requires domain { s < length store.old.sealed }
    requires codomain { t < length store.old.sealed }
    requires key { key.now ≡ Fun (functor_at store.old.sealed s).key (functor_at store.old.sealed t).key }
    requires free { IsFreeKey store.old.sealed key.now }
    ensures ok { OnOk result (IsAdded key.now store.old store.new) }
    ensures place { IfOk result (λ id. id ≡ length store.old.sealed) }
    ensures err { OnErr result (store.new ≡ store.old) }
    ensures faithful { (functors : List Presheaf) → IsFaithful site.now functors store.old → IsFaithful site.now functors store.new }
    ensures over { (functors : List Presheaf) → IsFaithful site.now functors store.old → IsOverExactly result (store.old.budget < cells store.old + cells_of site.now functors key.now) }
{
    let cat = site.cat();
    cat.laws();
    let room = store.room();
    match all_element_rows(alloc, cat, store, s, t, room)? {
        None => Err(StoreFault::Over),
        Some(rows) => seal_type(alloc, store, key, rows.as_slice()),
    }
}
