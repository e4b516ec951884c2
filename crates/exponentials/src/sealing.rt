// The elements of a type in a store.
ghost use Rattle.std.specs.Prelude.{◌≡◌, ◌+◌, ◌<◌, None, List, length, IfOk, OnOk};
ghost use Rattle.topos_model.specs.types.Types.{Presheaf};
ghost use Rattle.topos_model.specs.statements.Needs.{parts};
ghost use Rattle.functor_store.specs.Store.{cells};
ghost use Rattle.functor_store.specs.Faithful.{IsFaithful};
ghost use Rattle.sealed_functors.specs.Rows.{IsOverExactly};
ghost use Rattle.type_rows.specs.TypeRows.{HoldsNamed};
ghost use Rattle.exponentials.specs.Needed.{IsPlaceOf, HoldsAll, HoldsOmega, IsExtended, new_cells};

use crate::parts::seal_parts;
use functor_store::{FunctorId, FunctorStore, StoreFault};
use std::alloc::Global;
use topologies::Site;
use topos_model::Ty;

/// The place of a type in the store, which is sealed there with its parts, each once: number k at an object stands for the k-th element of the type there (Mac Lane and
/// Moerdijk, chapters I, IV and VI), a subset has the row of 1 or 0 for each place, and a function that of its values. The functors that the type names, and `Omega` where it occurs, are
/// sealed before. `Over` says that the cells of the store and those of the types that are not sealed exceed the budget. After a fault the functors that were sealed are
/// as before, and of the others each is whole or not there.
pub fn need(
    alloc: Global,
    store: &mut FunctorStore,
    site: &Site,
    ty: &Ty,
) -> Result<FunctorId, StoreFault>
    requires idle { store.old.building ≡ None }
    requires faithful { (functors : List Presheaf) × IsFaithful site.now functors store.old }
    requires named { HoldsNamed store.old ty.now }
    requires omega { HoldsOmega store.old ty.now }
    ensures place { IfOk result (λ id. IsPlaceOf store.new id ty.now) }
    ensures held { OnOk result (HoldsAll store.new (parts ty.now)) }
    ensures added { IsExtended (parts ty.now) store.old store.new }
    ensures faithful { (functors : List Presheaf) → IsFaithful site.now functors store.old → IsFaithful site.now functors store.new }
    ensures cells { (functors : List Presheaf) → IsFaithful site.now functors store.old → OnOk result (cells store.new ≡ cells store.old + new_cells site.now functors store.old (parts ty.now)) }
    ensures over { (functors : List Presheaf) → IsFaithful site.now functors store.old → IsOverExactly result (store.old.budget < cells store.old + new_cells site.now functors store.old (parts ty.now)) }
{
    let needed = seal_parts(alloc, store, site, ty);
    // The store's own clause: its cells are within the budget.
    let _ = store.room();
    needed
}
