// Sealed types by their places.
ghost use Rattle.std.specs.Prelude.{◌≡◌, ◌<◌, List, length, IfOk};
ghost use Rattle.topos_model.specs.declared.ty.Ty.{Ty};
ghost use Rattle.topos_model.specs.declared.context.MapTy.{MapTy};
ghost use Rattle.topos_model.specs.formulas.Forcing.{World};
ghost use Rattle.functor_store.specs.Store.{functor_at, size_at};
ghost use Rattle.functor_store.specs.Faithful.{Holds};
ghost use Rattle.truth_tables.specs.Tables.{row};
ghost use Rattle.term_tables.specs.Parts.{IsSealed};
ghost use Rattle.internal_interp.specs.Contexts.{widths_of};
ghost use Rattle.internal_interp.specs.Known.{Knows};

use crate::Interpreter;
use functor_store::{FunctorId, FunctorStore};
use std::alloc::Global;
use topos_model::{NoMemory, Row, Ty};

/// The place of a type that is sealed.
pub(crate) fn place_of(store: &FunctorStore, ty: &Ty) -> FunctorId
    requires held { Holds store.now ty.now }
    ensures place { IsSealed store.now ty.now result }
{
    match store.find(ty) {
        Some(id) => id,
        None => unreachable!(),
    }
}

// How many elements a sealed functor has at each of so many objects.
fn sizes_at(
    alloc: Global,
    store: &FunctorStore,
    id: FunctorId,
    objects: u32,
) -> Result<Row<u32>, NoMemory>
    requires sealed { id < length store.now.sealed }
    requires site { objects ≡ store.now.objects }
    ensures { IfOk result (λ sizes. sizes ≡ row objects (size_at (functor_at store.now.sealed id))) }
{
    let mut sizes = Row::new(alloc);
    for c in 0..objects {
        sizes.push(store.count(id, c))?;
    }
    Ok(sizes)
}

/// How many elements a sealed type has at each object.
pub(crate) fn widths(
    alloc: Global,
    interpreter: &Interpreter<'_>,
    ty: &Ty,
) -> Result<Row<u32>, NoMemory>
    requires known { (w : World) × (maps : List MapTy) × Knows w maps interpreter.now }
    requires held { Holds interpreter.now.store.now ty.now }
    ensures { IfOk result (λ widths. (w : World) (maps : List MapTy) → Knows w maps interpreter.now → widths ≡ widths_of w ty.now) }
{
    let objects = interpreter.site.cat().objects();
    let id = place_of(interpreter.store, ty);
    sizes_at(alloc, interpreter.store, id, objects)
}
