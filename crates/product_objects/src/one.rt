// The type with one element.
ghost use Rattle.std.specs.Prelude.{◌≡◌, ℕ, ◌+◌, ◌<◌, [], None, List, length, replicate, IfOk, OnOk, OnErr};
ghost use Rattle.topos_model.specs.declared.ty.Ty.TheVariants.{One as OneType};
ghost use Rattle.topos_model.specs.categories.Category.{into};
ghost use Rattle.topos_model.specs.types.Types.{Presheaf};
ghost use Rattle.topos_model.specs.statements.Cells.{cells_of};
ghost use Rattle.functor_store.specs.Store.{cells, IsFreeKey};
ghost use Rattle.functor_store.specs.Faithful.{IsFaithful};
ghost use Rattle.sealed_functors.specs.Rows.{rows_at, IsOverExactly};
ghost use Rattle.type_rows.specs.TypeRows.{IsAdded};

use fin_category::Cat;
use functor_store::{FunctorId, FunctorStore, StoreFault};
use sealed_functors::ElementRows;
use std::alloc::Global;
use topologies::Site;
use topos_model::{NoMemory, Row, Ty};
use type_rows::seal_type;

// So many zeros.
fn zeros(alloc: Global, count: usize) -> Result<Row<u32>, NoMemory>
    ensures { IfOk result (λ row. row ≡ replicate count 0) }
{
    let mut row = Row::new(alloc);
    for _ in 0..count {
        row.push(0)?;
    }
    Ok(row)
}

// One element at each object, which restricts to the one element.
fn one_rows(alloc: Global, cat: &Cat) -> Result<Row<ElementRows>, NoMemory>
    ensures objects { IfOk result (λ all. length all ≡ cat.now.objects) }
    ensures rows { IfOk result (λ all. (c : ℕ) → c < cat.now.objects → rows_at all c ≡ record { count = 1; width = 0; arrows = length (into cat.now c); rows = []; restrictions = replicate (length (into cat.now c)) 0 }) }
{
    let mut all = Row::new(alloc);
    for c in 0..cat.objects() {
        let arrows = cat.arrows_into(c).len();
        all.push(ElementRows {
            count: 1,
            width: 0,
            arrows: arrows as u32,
            rows: Row::new(alloc),
            restrictions: zeros(alloc, arrows)?,
        })?;
    }
    Ok(all)
}

/// Seals the type with one element. `Over` says that its cells and those of the store together exceed the budget. After a fault the store is as before.
pub fn seal_one(
    alloc: Global,
    store: &mut FunctorStore,
    site: &Site,
) -> Result<FunctorId, StoreFault>
    requires idle { store.old.building ≡ None }
    requires faithful { (functors : List Presheaf) × IsFaithful site.now functors store.old }
    requires free { IsFreeKey store.old.sealed OneType }
    ensures ok { OnOk result (IsAdded OneType store.old store.new) }
    ensures place { IfOk result (λ id. id ≡ length store.old.sealed) }
    ensures err { OnErr result (store.new ≡ store.old) }
    ensures faithful { (functors : List Presheaf) → IsFaithful site.now functors store.old → IsFaithful site.now functors store.new }
    ensures over { (functors : List Presheaf) → IsFaithful site.now functors store.old → IsOverExactly result (store.old.budget < cells store.old + cells_of site.now functors OneType) }
{
    let cat = site.cat();
    cat.laws();
    let rows = one_rows(alloc, cat)?;
    seal_type(alloc, store, &Ty::One, rows.as_slice())
}
