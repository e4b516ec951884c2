// Tables by their entries.
ghost use Rattle.std.specs.Prelude.{◌≡◌, ◌<◌, ◌≤◌, ◌+◌, ◌*◌, ◌^◌, ℕ, [], length, get_or, IfOk};
ghost use Rattle.truth_tables.specs.Tables.{table, block, bit, number};

use crate::TupleTable;
use std::alloc::Global;
use topos_model::{NoMemory, Row};

/// For each object a truth value for each tuple.
pub type Truths = TupleTable<bool>;

/// For each object an element number for each tuple.
pub type Numbers = TupleTable<u32>;

// How many tuples there are, or more than memory has room for.
pub(crate) fn total(sizes: &[u32]) -> usize {
    let mut total = 0usize;
    for size in sizes {
        total = total.saturating_add(*size as usize);
    }
    total
}

/// The table of these entries, the numbers of tuples at each object being given.
pub fn table<T: Drop, F: Fn(u32, u32) -> T>(
    alloc: Global,
    sizes: &[u32],
    entry: F,
) -> Result<TupleTable<T>, NoMemory>
    requires objects { length sizes.now < 2 ^ 32 }
    requires entries { (c i : ℕ) → c < length sizes.now → i < get_or sizes.now c 0 → F.pre entry c i }
    ensures { IfOk result (λ rows. (f : ℕ → ℕ → T) → ((c i : ℕ) (x : T) → c < length sizes.now → i < get_or sizes.now c 0 → F.post entry c i x → x ≡ f c i) → rows ≡ table sizes.now f) }
{
    let mut rows = TupleTable::with_capacity(alloc, sizes.len(), total(sizes))?;
    for c in 0..sizes.len() as u32 {
        rows.push_entries(c, sizes[c as usize], &entry)?;
    }
    Ok(rows)
}

/// The row of an object.
pub fn row_at<T>(rows: &[Row<T>], c: u32) -> &[T]
    requires { c < length rows.now }
    ensures { result.now ≡ get_or rows.now c [] }
{
    rows[c as usize].as_slice()
}

/// The truth value of a tuple.
pub fn bit(truths: &Truths, c: u32, i: u32) -> bool
    requires object { c < length truths.now }
    requires tuple { i < length (get_or truths.now c []) }
    ensures { result ≡ bit truths.now c i }
{
    truths.row(c)[i as usize]
}

/// The number of a tuple.
pub fn number(numbers: &Numbers, c: u32, i: u32) -> u32
    requires object { c < length numbers.now }
    requires tuple { i < length (get_or numbers.now c []) }
    ensures { result ≡ number numbers.now c i }
{
    numbers.row(c)[i as usize]
}

// The entries of the tuples that put one of so many elements behind the tuple i.
pub(crate) fn block<T>(width: u32, i: u32, entries: &[T]) -> &[T]
    requires { i * width + width ≤ length entries.now }
    ensures { result.now ≡ block width i entries.now }
{
    let _len = entries.len();
    let start = i as usize * width as usize;
    &entries[start..start + width as usize]
}
