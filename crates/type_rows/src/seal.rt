// Sealing a type from the rows of its elements.
ghost use Rattle.std.specs.Prelude.{◌≡◌, ℕ, ◌+◌, ◌^◌, ◌<◌, None, List, length, IfOk, OnOk, OnErr};
ghost use Rattle.topos_model.specs.topologies.Cover.{Site};
ghost use Rattle.topos_model.specs.Laws.{IsCategory};
ghost use Rattle.topos_model.specs.types.Types.{Presheaf};
ghost use Rattle.topos_model.specs.statements.Cells.{cells_of};
ghost use Rattle.functor_store.specs.Store.{cells, IsFreeKey};
ghost use Rattle.functor_store.specs.Faithful.{IsFaithful};
ghost use Rattle.sealed_functors.specs.Rows.{IsOverExactly};
ghost use Rattle.type_rows.specs.TypeRows.{IsAdded, HoldsNamed, AreTypeRows};

use functor_store::{FunctorId, FunctorStore, StoreFault};
use sealed_functors::{ElementRows, seal_rows};
use std::alloc::Global;
use topos_model::{Copied, NoMemory, Ty};

/// Seals a type whose elements at each object have these rows and restrictions. `Over` says that the cells of the type and those of the store together exceed the
/// budget. After a fault the store is as before.
pub fn seal_type(
    alloc: Global,
    store: &mut FunctorStore,
    key: &Ty,
    at: &[ElementRows],
) -> Result<FunctorId, StoreFault>
    requires idle { store.old.building ≡ None }
    requires free { IsFreeKey store.old.sealed key.now }
    requires few { length at.now < 2 ^ 32 }
    requires rows { (s : Site) × (functors : List Presheaf) × IsCategory s.category × IsFaithful s functors store.old × AreTypeRows s functors key.now at.now }
    ensures ok { OnOk result (IsAdded key.now store.old store.new) }
    ensures place { IfOk result (λ id. id ≡ length store.old.sealed) }
    ensures err { OnErr result (store.new ≡ store.old) }
    ensures faithful { OnOk result ((s : Site) (functors : List Presheaf) → IsCategory s.category → IsFaithful s functors store.old → HoldsNamed store.old key.now → AreTypeRows s functors key.now at.now → IsFaithful s functors store.new) }
    ensures over { (s : Site) (functors : List Presheaf) → IsCategory s.category → IsFaithful s functors store.old → AreTypeRows s functors key.now at.now → IsOverExactly result (store.old.budget < cells store.old + cells_of s functors key.now) }
{
    match key.copy(alloc) {
        Err(NoMemory) => Err(StoreFault::NoMemory),
        Ok(key) => seal_rows(store, key, at),
    }
}
