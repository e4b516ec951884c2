// The elements of a presheaf with their restrictions.
ghost use Rattle.std.specs.Prelude.{◌≡◌, ℕ, ◌<◌, ◌++◌, length, IfOk, OnOk};
ghost use Rattle.std.specs.List.{flat_map, range_with_len};
ghost use Rattle.topos_model.specs.Laws.{IsFunctor, size};
ghost use Rattle.sealed_functors.specs.Rows.{rows_at};
ghost use Rattle.named_functors.specs.NamedRows.{restriction_row, named_rows};

use fin_category::Cat;
use presheaf_core::Functor;
use sealed_functors::ElementRows;
use std::alloc::Global;
use topos_model::{NoMemory, Row};

// Puts the restrictions of the element x at c behind the others.
fn push_element(
    cat: &Cat,
    functor: &Functor,
    c: u32,
    x: u32,
    out: &mut Row<u32>,
) -> Result<(), NoMemory>
    requires functor { IsFunctor cat.now functor.now }
    requires object { c < cat.now.objects }
    requires element { x < size functor.now c }
    ensures pushed { OnOk result (out.new ≡ out.old ++ restriction_row cat.now functor.now c x) }
{
    for f in cat.arrows_into(c) {
        out.push(functor.restrict(*f, x))?;
    }
    Ok(())
}

// The elements at c.
fn rows_over(alloc: Global, cat: &Cat, functor: &Functor, c: u32) -> Result<ElementRows, NoMemory>
    requires functor { IsFunctor cat.now functor.now }
    requires object { c < cat.now.objects }
    ensures rows { IfOk result (λ rows. rows ≡ named_rows cat.now functor.now c) }
{
    let count = functor.size(c);
    let mut restrictions = Row::new(alloc);
    'elements: for x in 0..count {
        push_element(cat, functor, c, x, &mut restrictions)?;
    }
    Ok(ElementRows {
        count,
        width: 0,
        arrows: cat.arrows_into(c).len() as u32,
        rows: Row::new(alloc),
        restrictions,
    })
}

// The same at each object.
pub(crate) fn all_rows(
    alloc: Global,
    cat: &Cat,
    functor: &Functor,
) -> Result<Row<ElementRows>, NoMemory>
    requires functor { IsFunctor cat.now functor.now }
    ensures objects { IfOk result (λ all. length all ≡ cat.now.objects) }
    ensures rows { IfOk result (λ all. (c : ℕ) → c < cat.now.objects → rows_at all c ≡ named_rows cat.now functor.now c) }
{
    let mut all = Row::new(alloc);
    for c in 0..cat.objects() {
        all.push(rows_over(alloc, cat, functor, c)?)?;
    }
    Ok(all)
}
