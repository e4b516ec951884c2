// How many elements of the codomain there are for each element of the domain.
ghost use Rattle.std.specs.Prelude.{◌≡◌, ◌++◌, replicate, length, IfOk, OnOk};
ghost use Rattle.topos_model.specs.Laws.{IsFunctor};
ghost use Rattle.natural_maps.specs.Search.{bounds_of};

use fin_category::Cat;
use presheaf_core::Functor;
use std::alloc::Global;
use topos_model::{NoMemory, Row};

// Puts so many equal numbers last.
fn push_times(row: &mut Row<u32>, number: u32, count: u32) -> Result<(), NoMemory>
    ensures { OnOk result (row.new ≡ row.old ++ replicate count number) }
{
    for _ in 0..count {
        row.push(number)?;
    }
    Ok(())
}

// For each element of p, objects in order, how many elements q has there.
pub(crate) fn bounds(
    alloc: Global,
    cat: &Cat,
    p: &Functor,
    q: &Functor,
) -> Result<Row<u32>, NoMemory>
    requires domain { length p.now.sizes ≡ cat.now.objects }
    requires codomain { length q.now.sizes ≡ cat.now.objects }
    ensures { IfOk result (λ bounds. bounds ≡ bounds_of cat.now p.now q.now) }
{
    let mut bounds = Row::new(alloc);
    for c in 0..cat.objects() {
        push_times(&mut bounds, q.size(c), p.size(c))?;
    }
    Ok(bounds)
}
