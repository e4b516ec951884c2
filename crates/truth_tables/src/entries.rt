// Images under maps, and what the rows of elements say: values of functions, members of subsets.
ghost use Rattle.std.specs.Prelude.{◌≡◌, ◌<◌, ◌^◌, ℕ, [], length, get_or, eqb, IfOk};
ghost use Rattle.functor_store.specs.Store.{functor_at, element_at};
ghost use Rattle.truth_tables.specs.Tables.{table, number, IsOver};
ghost use Rattle.truth_tables.specs.Entries.{AreEntries, IsEntry};

use crate::tables::{number, row_at, table};
use crate::{Numbers, Truths};
use functor_store::{FunctorId, FunctorStore};
use std::alloc::Global;
use topos_model::{NoMemory, Row};

/// The images of numbers, where the images of all elements are given at each object.
pub fn images(
    alloc: Global,
    sizes: &[u32],
    images: &[Row<u32>],
    numbers: &Numbers,
) -> Result<Numbers, NoMemory>
    requires objects { length sizes.now < 2 ^ 32 }
    requires numbers { IsOver sizes.now numbers.now }
    requires images { length images.now ≡ length sizes.now }
    requires elements { (c i : ℕ) → c < length sizes.now → i < get_or sizes.now c 0 → number numbers.now c i < length (get_or images.now c []) }
    ensures { IfOk result (λ out. out ≡ table sizes.now (λ c i. number images.now c (number numbers.now c i))) }
{
    table(
        alloc,
        sizes,
        |c, i| row_at(images, c)[number(numbers, c, i) as usize],
    )
}

// The entry of an element's row.
fn entry(store: &FunctorStore, id: FunctorId, c: u32, k: u32, place: u32) -> u32
    requires { IsEntry store.now id c k place }
    ensures { result ≡ get_or (element_at (functor_at store.now.sealed id) c k) place 0 }
{
    store.element(id, c, k)[place as usize]
}

/// The values of functions of a sealed function type at arguments. Those at the identity of an object are the first entries of a function's row.
pub fn values(
    alloc: Global,
    store: &FunctorStore,
    id: FunctorId,
    sizes: &[u32],
    functions: &Numbers,
    arguments: &Numbers,
) -> Result<Numbers, NoMemory>
    requires objects { length sizes.now < 2 ^ 32 }
    requires sealed { id < length store.now.sealed }
    requires site { length sizes.now ≡ store.now.objects }
    requires functions { IsOver sizes.now functions.now }
    requires arguments { IsOver sizes.now arguments.now }
    requires entries { AreEntries (functor_at store.now.sealed id) sizes.now functions.now arguments.now }
    ensures { IfOk result (λ values. values ≡ table sizes.now (λ c i. get_or (element_at (functor_at store.now.sealed id) c (number functions.now c i)) (number arguments.now c i) 0)) }
{
    table(
        alloc,
        sizes,
        |c, i| entry(
            store,
            id,
            c,
            number(functions, c, i),
            number(arguments, c, i),
        ),
    )
}

/// Whether elements are members of subsets of a sealed power. Those at the identity of an object are the first entries of a subset's row.
pub fn members(
    alloc: Global,
    store: &FunctorStore,
    id: FunctorId,
    sizes: &[u32],
    subsets: &Numbers,
    elements: &Numbers,
) -> Result<Truths, NoMemory>
    requires objects { length sizes.now < 2 ^ 32 }
    requires sealed { id < length store.now.sealed }
    requires site { length sizes.now ≡ store.now.objects }
    requires subsets { IsOver sizes.now subsets.now }
    requires elements { IsOver sizes.now elements.now }
    requires entries { AreEntries (functor_at store.now.sealed id) sizes.now subsets.now elements.now }
    ensures { IfOk result (λ truths. truths ≡ table sizes.now (λ c i. eqb (get_or (element_at (functor_at store.now.sealed id) c (number subsets.now c i)) (number elements.now c i) 0) 1)) }
{
    table(
        alloc,
        sizes,
        |c, i| entry(store, id, c, number(subsets, c, i), number(elements, c, i)) == 1,
    )
}
