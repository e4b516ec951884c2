// The elements of a presheaf that are kept, numbered in order, and the presheaf of them.
ghost use Rattle.std.specs.Prelude.{◌≡◌, ◌≤◌, ◌<◌, ℕ, true, false, map, length, get_or, IfOk};
ghost use Rattle.std.specs.List.{range_with_len};
ghost use Rattle.topos_model.specs.Laws.{IsCategory, IsFunctor};
ghost use Rattle.natural_maps.specs.Room.{max_room};
ghost use Rattle.finite_limits.specs.Kept.{AreKept};
ghost use Rattle.finite_limits.specs.Parts.{IsPart, IsPartWithin, part_row};

use fin_category::Cat;
use natural_maps::{lengths, sizes_within};
use presheaf_core::Functor;
use std::alloc::Global;
use topos_model::{Bits, NoMemory, Row};

// The numbers that are marked, in order, and for each number how many marked ones stand before it.
pub(crate) fn kept(alloc: Global, marks: &Bits, size: u32) -> Result<(Row<u32>, Row<u32>), NoMemory>
    requires { length marks.now ≡ size }
    ensures { IfOk result (λ kept. AreKept (λ x. get_or marks.now x false ≡ true) size kept.0 kept.1) }
{
    let mut elements = Row::new(alloc);
    let mut ranks = Row::new(alloc);
    for x in 0..size {
        ranks.push(elements.len() as u32)?;
        if marks.get(x as usize) {
            elements.push(x)?;
        }
    }
    Ok((elements, ranks))
}

// The places to which the kept elements are restricted.
fn restricted(
    alloc: Global,
    elements: &[u32],
    along: &[u32],
    ranks: &[u32],
) -> Result<Row<u32>, NoMemory>
    requires elements { (t : ℕ) → t < length elements.now → get_or elements.now t 0 < length along.now }
    requires within { (x : ℕ) → x < length along.now → get_or along.now x 0 < length ranks.now }
    ensures { IfOk result (λ row. row ≡ map (λ x. get_or ranks.now (get_or along.now x 0) 0) elements.now) }
{
    let mut row = Row::new(alloc);
    for x in elements {
        row.push(ranks[along[*x as usize] as usize])?;
    }
    Ok(row)
}

// The restrictions of the kept elements along each arrow.
fn part_restrictions(
    alloc: Global,
    cat: &Cat,
    x: &Functor,
    elements: &Row<Row<u32>>,
    ranks: &Row<Row<u32>>,
) -> Result<Row<Row<u32>>, NoMemory>
    requires functor { IsFunctor cat.now x.now }
    requires part { IsPart cat.now x.now elements.now ranks.now }
    ensures { IfOk result (λ rows. rows ≡ map (part_row cat.now x.now elements.now ranks.now) (range_with_len 0 (length cat.now.ends))) }
{
    let mut rows = Row::new(alloc);
    for f in 0..cat.arrows() {
        let from = elements.get(cat.cod(f) as usize).as_slice();
        let to = ranks.get(cat.dom(f) as usize).as_slice();
        rows.push(restricted(alloc, from, x.row(f), to)?)?;
    }
    Ok(rows)
}

// The presheaf of the kept elements, or none exactly where it has more cells than there is room for.
pub(crate) fn part(
    alloc: Global,
    cat: &Cat,
    x: &Functor,
    elements: &Row<Row<u32>>,
    ranks: &Row<Row<u32>>,
    room: u64,
) -> Result<Option<Functor>, NoMemory>
    requires functor { IsFunctor cat.now x.now }
    requires part { IsPart cat.now x.now elements.now ranks.now }
    requires room { room ≤ max_room }
    ensures part { IfOk result (λ part. IsPartWithin cat.now x.now elements.now ranks.now room part) }
    ensures lawful { IfOk result (λ _. IsCategory cat.now) }
{
    let counts = lengths(alloc, elements)?;
    match sizes_within(alloc, cat, counts.as_slice(), room)? {
        None => Ok(None),
        Some(sizes) => {
            let along = part_restrictions(alloc, cat, x, elements, ranks)?;
            Ok(Some(Functor::from_rows(cat, sizes, along)))
        }
    }
}
