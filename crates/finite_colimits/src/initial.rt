// The initial presheaf.
ghost use Rattle.std.specs.Prelude.{◌≡◌, [], length, replicate, IfOk};
ghost use Rattle.topos_model.specs.presheaves.Colimits.{IsInitial};

use fin_category::Cat;
use presheaf_core::Functor;
use std::alloc::Global;
use topos_model::{NoMemory, Row};

// So many zeros.
fn zeros(alloc: Global, count: u32) -> Result<Row<u32>, NoMemory>
    ensures { IfOk result (λ row. row ≡ replicate count 0) }
{
    let mut row = Row::new(alloc);
    for _ in 0..count {
        row.push(0)?;
    }
    Ok(row)
}

// So many empty rows.
fn empty_rows(alloc: Global, count: u32) -> Result<Row<Row<u32>>, NoMemory>
    ensures { IfOk result (λ rows. rows ≡ replicate count []) }
{
    let mut rows = Row::new(alloc);
    for _ in 0..count {
        rows.push(Row::new(alloc))?;
    }
    Ok(rows)
}

/// The initial presheaf, which has no element at any object (Mac Lane and Moerdijk, Categorical Preliminaries).
pub fn empty(alloc: Global, cat: &Cat) -> Result<Functor, NoMemory>
    ensures { IfOk result (λ Z. IsInitial cat.now Z) }
{
    let sizes = zeros(alloc, cat.objects())?;
    let along = empty_rows(alloc, cat.arrows())?;
    Ok(Functor::from_rows(cat, sizes, along))
}
