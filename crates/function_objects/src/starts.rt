// The numbers of the first places.
ghost use Rattle.std.specs.Prelude.{◌<◌, ◌^◌, length, IfOk};
ghost use Rattle.place_closures.specs.Pairs.{AreStarts, pairs};
ghost use Rattle.function_objects.specs.Parts.{IsPart};
ghost use Rattle.sealed_types.specs.Sealed.{sizes_in, restrictions_in};

use fin_category::Cat;
use functor_store::{FunctorId, FunctorStore};
use std::alloc::Global;
use topos_model::NoMemory;

// For each arrow into c the number of its first pair with an element over its domain, by the number of the arrow.
pub(crate) fn place_starts(
    alloc: Global,
    cat: &Cat,
    store: &FunctorStore,
    s: FunctorId,
    c: u32,
) -> Result<Vec<usize>, NoMemory>
    requires part { IsPart cat.now store.now s }
    requires object { c < cat.now.objects }
    ensures starts { IfOk result (λ starts. AreStarts cat.now (sizes_in store.now s) (restrictions_in store.now s) c starts.items) }
    ensures few { IfOk result (λ _. length (pairs cat.now (sizes_in store.now s) (restrictions_in store.now s) c) < 2 ^ 60) }
{
    cat.laws();
    let mut starts = Vec::new(alloc);
    starts.resize(cat.arrows() as usize, 0)?;
    let mut before = 0;
    for f in cat.arrows_into(c) {
        starts[*f as usize] = before;
        before += store.count(s, cat.dom(*f)) as usize;
    }
    Ok(starts)
}
