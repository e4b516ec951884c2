// Functions and subsets that terms with one more variable define, by their rows.
ghost use Rattle.std.specs.Prelude.{◌≡◌, ◌<◌, ◌++◌, ◌^◌, ◌*◌, ℕ, [], length, get_or, IfOk, OnOk};
ghost use Rattle.finite_lists.specs.Members.{In};
ghost use Rattle.finite_lists.specs.Rising.{Rising, NumbersBelow};
ghost use Rattle.natural_search.specs.Rows.{IsCompared};
ghost use Rattle.functor_store.specs.Store.{into, functor_at, size_at, element_at, restrictions_at};
ghost use Rattle.truth_tables.specs.Abstraction.{row_of, HasBlocks, IsElement, IsNumbered, IsThere, AreThere, AreNumbered};

use crate::tables::{block, row_at, total};
use crate::{Numbers, TupleTable};
use functor_store::{FunctorId, FunctorStore};
use natural_search::{compare_rows, place_by, push_row};
use std::alloc::Global;
use topos_model::{NoMemory, Row};

/// The number, among the elements at c of a functor whose rows rise, of the one with this row. Where there is none the number says nothing.
pub fn element_number(store: &FunctorStore, id: FunctorId, c: u32, row: &[u32]) -> u32
    requires sealed { id < length store.now.sealed }
    requires object { c < store.now.objects }
    requires long { (k : ℕ) → k < size_at (functor_at store.now.sealed id) c → length (element_at (functor_at store.now.sealed id) c k) ≡ length row.now }
    ensures found { Rising NumbersBelow (get_or (functor_at store.now.sealed id).rows c []) → In (get_or (functor_at store.now.sealed id).rows c []) row.now → IsNumbered (functor_at store.now.sealed id) c row.now result }
{
    place_by(
        u64::from(store.count(id, c)),
        |k|
            requires { IsElement store.now id c k row.now }
            ensures { IsCompared (element_at (functor_at store.entry.now.sealed id) c k) row.entry.now result }
        { compare_rows(store.element(id, c, k as u32), row) },
    ) as u32
}

// Puts the entries behind the restrictions of a tuple along all arrows into its object last.
fn push_behind(
    sources: &[u32],
    restrictions: &[u32],
    widths: &[u32],
    body: &Numbers,
    out: &mut Row<u32>,
) -> Result<(), NoMemory>
    requires arrows { length restrictions.now ≡ length sources.now }
    requires blocks { HasBlocks sources.now restrictions.now widths.now body.now }
    ensures { OnOk result (out.new ≡ out.old ++ row_of sources.now restrictions.now widths.now body.now) }
{
    for j in 0..sources.len() {
        let d = sources[j];
        push_row(out, block(widths[d as usize], restrictions[j], body.row(d)))?;
    }
    Ok(())
}

// Puts the numbers, at the tuples of an object, of the elements whose rows the entries behind their restrictions are, in place of what was there.
fn numbers_at(
    store: &FunctorStore,
    context: FunctorId,
    id: FunctorId,
    c: u32,
    size: u32,
    sources: &[u32],
    widths: &[u32],
    body: &Numbers,
    scratch: &mut Row<u32>,
    numbers: &mut Row<u32>,
) -> Result<(), NoMemory>
    requires sealed { (context < length store.now.sealed) × (id < length store.now.sealed) }
    requires object { c < store.now.objects }
    requires tuples { size ≡ size_at (functor_at store.now.sealed context) c }
    requires arrows { length sources.now ≡ into store.now.ends c }
    requires rise { Rising NumbersBelow (get_or (functor_at store.now.sealed id).rows c []) }
    requires there { (i : ℕ) → i < size → IsThere (functor_at store.now.sealed id) c sources.now (restrictions_at (functor_at store.now.sealed context) c i) widths.now body.now }
    ensures size { OnOk result (length numbers.new ≡ size) }
    ensures numbers { OnOk result ((i : ℕ) → i < size → IsNumbered (functor_at store.now.sealed id) c (row_of sources.now (restrictions_at (functor_at store.now.sealed context) c i) widths.now body.now) (get_or numbers.new i 0)) }
{
    numbers.truncate(0);
    for i in 0..size {
        scratch.truncate(0);
        push_behind(
            sources,
            store.restrictions(context, c, i),
            widths,
            body,
            scratch,
        )?;
        numbers.push(element_number(store, id, c, scratch.as_slice()))?;
    }
    Ok(())
}

/// The function, or the subset, that a term with one more variable defines at each tuple of a sealed context: the number of the element, of a sealed functor whose rows
/// rise, whose row has for each arrow into the object, in order, the entries of the body behind the tuple's restriction (Mac Lane and Moerdijk, Sheaves in Geometry and
/// Logic, VI). The widths are the numbers of the variable's values at each object.
pub fn abstractions(
    alloc: Global,
    store: &FunctorStore,
    context: FunctorId,
    id: FunctorId,
    sizes: &[u32],
    sources: &[Row<u32>],
    widths: &[u32],
    body: &Numbers,
) -> Result<Numbers, NoMemory>
    requires objects { length sizes.now < 2 ^ 32 }
    requires sealed { (context < length store.now.sealed) × (id < length store.now.sealed) }
    requires site { length sizes.now ≡ store.now.objects }
    requires sources { length sources.now ≡ length sizes.now }
    requires tuples { (c : ℕ) → c < length sizes.now → get_or sizes.now c 0 ≡ size_at (functor_at store.now.sealed context) c }
    requires arrows { (c : ℕ) → c < length sizes.now → length (get_or sources.now c []) ≡ into store.now.ends c }
    requires rise { (c : ℕ) → c < length sizes.now → Rising NumbersBelow (get_or (functor_at store.now.sealed id).rows c []) }
    requires there { AreThere (functor_at store.now.sealed context) (functor_at store.now.sealed id) sizes.now sources.now widths.now body.now }
    ensures { IfOk result (AreNumbered (functor_at store.now.sealed context) (functor_at store.now.sealed id) sizes.now sources.now widths.now body.now) }
{
    let mut scratch = Row::new(alloc);
    let mut row = Row::new(alloc);
    let mut numbers = TupleTable::with_capacity(alloc, sizes.len(), total(sizes))?;
    for c in 0..sizes.len() as u32 {
        numbers_at(
            store,
            context,
            id,
            c,
            sizes[c as usize],
            row_at(sources, c),
            widths,
            body,
            &mut scratch,
            &mut row,
        )?;
        numbers.push_numbers(row.as_slice())?;
    }
    Ok(numbers)
}
