// The cells of a presheaf, counted from its sizes before it is built.
ghost use Rattle.std.specs.Prelude.{◌≡◌, ◌≤◌, ◌<◌, ◌^◌, ℕ, List, map, length, get_or, true, false, IfOk};
ghost use Rattle.topos_model.specs.Laws.{IsCategory};
ghost use Rattle.natural_maps.specs.Room.{sized_cells, max_room, AreSizesWithin};

use fin_category::Cat;
use std::alloc::Global;
use topos_model::{NoMemory, Row};

/// The most room that a construction is given, in cells.
pub const MAX_ROOM: u64 = 64_000_000;

// Whether a presheaf with these sizes, one for each object, has at most so many cells.
fn fits(cat: &Cat, sizes: &[u64], room: u64) -> bool
    requires objects { length sizes.now ≡ cat.now.objects }
    ensures fits { result ≡ true → sized_cells cat.now sizes.now ≤ room }
    ensures over { result ≡ false → room < sized_cells cat.now sizes.now }
    ensures lawful { IsCategory cat.now }
{
    let mut left = room;
    for c in 0..cat.objects() {
        let cost = 1 + cat.arrows_into(c).len() as u64;
        let size = sizes[c as usize];
        if size > left / cost {
            return false;
        }
        left -= size * cost;
    }
    true
}

// The same numbers in 32 bits.
fn narrowed(alloc: Global, numbers: &[u64]) -> Result<Row<u32>, NoMemory>
    requires small { (i : ℕ) → i < length numbers.now → get_or numbers.now i 0 < 2 ^ 32 }
    ensures { IfOk result (λ row. row ≡ numbers.now) }
{
    let mut row = Row::new(alloc);
    for number in numbers {
        row.push(*number as u32)?;
    }
    Ok(row)
}

/// These numbers of elements, one for each object, as the sizes of a presheaf; or none exactly where such a presheaf has more cells than there is room for.
pub fn sizes_within(
    alloc: Global,
    cat: &Cat,
    counts: &[u64],
    room: u64,
) -> Result<Option<Row<u32>>, NoMemory>
    requires objects { length counts.now ≡ cat.now.objects }
    requires room { room ≤ max_room }
    ensures sizes { IfOk result (λ sizes. AreSizesWithin cat.now counts.now room sizes) }
    ensures lawful { IsCategory cat.now }
{
    if !fits(cat, counts, room) {
        return Ok(None);
    }
    Ok(Some(narrowed(alloc, counts)?))
}

/// How many numbers each row has.
pub fn lengths(alloc: Global, rows: &Row<Row<u32>>) -> Result<Row<u64>, NoMemory>
    ensures { IfOk result (λ lengths. lengths ≡ map length rows.now) }
{
    let mut lengths = Row::new(alloc);
    for row in rows.as_slice() {
        lengths.push(row.len() as u64)?;
    }
    Ok(lengths)
}
