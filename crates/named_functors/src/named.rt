// Sealing a presheaf under its number.
ghost use Rattle.std.specs.Prelude.{◌≡◌, ◌+◌, ◌<◌, ◌++◌, ◌∷◌, [], None, List, length, IfOk, OnOk, OnErr};
ghost use Rattle.topos_model.specs.declared.ty.Ty.{Base as BaseType};
ghost use Rattle.topos_model.specs.Laws.{IsFunctor};
ghost use Rattle.topos_model.specs.types.Types.{Presheaf};
ghost use Rattle.topos_model.specs.statements.Cells.{presheaf_cells};
ghost use Rattle.functor_store.specs.Store.{cells};
ghost use Rattle.functor_store.specs.Faithful.{IsFaithful};
ghost use Rattle.sealed_functors.specs.Rows.{IsOverExactly};
ghost use Rattle.type_rows.specs.TypeRows.{IsAdded};

use crate::rows::all_rows;
use fin_category::Cat;
use functor_store::{FunctorId, FunctorStore, StoreFault};
use presheaf_core::Functor;
use sealed_functors::seal_rows;
use std::alloc::Global;
use topologies::Site;
use topos_model::Ty;

/// Seals the next presheaf, whose number is that of the presheaves before it, with its elements and their restrictions. `Over` says that its cells and those of the store
/// together exceed the budget. After a fault the store is as before.
pub fn seal_functor(
    alloc: Global,
    store: &mut FunctorStore,
    site: &Site,
    number: u32,
    functor: &Functor,
) -> Result<FunctorId, StoreFault>
    requires idle { store.old.building ≡ None }
    requires faithful { (functors : List Presheaf) × (length functors ≡ number) × IsFaithful site.now functors store.old }
    requires functor { IsFunctor site.now.category functor.now }
    ensures ok { OnOk result (IsAdded (BaseType number) store.old store.new) }
    ensures place { IfOk result (λ id. id ≡ length store.old.sealed) }
    ensures err { OnErr result (store.new ≡ store.old) }
    ensures faithful { OnOk result ((functors : List Presheaf) → length functors ≡ number → IsFaithful site.now functors store.old → IsFaithful site.now (functors ++ functor.now ∷ []) store.new) }
    ensures over { IsOverExactly result (store.old.budget < cells store.old + presheaf_cells site.now.category functor.now) }
{
    let cat = site.cat();
    cat.laws();
    let rows = all_rows(alloc, cat, functor)?;
    seal_rows(store, Ty::Base(number), rows.as_slice())
}
