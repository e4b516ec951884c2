// Products: all pairs of elements.
ghost use Rattle.std.specs.Prelude.{◌≡◌, ◌≤◌, ◌<◌, ◌*◌, ◌^◌, ℕ, length, IfOk};
ghost use Rattle.std.specs.List.{range_with_len};
ghost use Rattle.topos_model.specs.types.Types.{Presheaf};
ghost use Rattle.topos_model.specs.Laws.{IsCategory, IsFunctor, size};
ghost use Rattle.topos_model.specs.presheaves.Maps.{Components};
ghost use Rattle.topos_model.specs.presheaves.Limits.{IsProduct};
ghost use Rattle.topos_model.specs.statements.Cells.{presheaf_cells};
ghost use Rattle.natural_maps.specs.Made.{IfMade2, IfOver2};
ghost use Rattle.natural_maps.specs.Room.{max_room, IsOverRoom};
ghost use Rattle.finite_limits.specs.Pairs.{firsts, seconds, starts, first_parts, second_parts, start_rows, place_rows, whole_fibres, whole_places, product_sizes};

use crate::pairing::{Pairs, paired};
use fin_category::Cat;
use natural_maps::{Made2, sizes_within};
use presheaf_core::Functor;
use std::alloc::Global;
use topos_model::{NoMemory, Row};

// How many pairs there are at each object.
fn counts(alloc: Global, cat: &Cat, x: &Functor, y: &Functor) -> Result<Row<u64>, NoMemory>
    requires first { length x.now.sizes ≡ cat.now.objects }
    requires second { length y.now.sizes ≡ cat.now.objects }
    ensures { IfOk result (λ counts. counts ≡ product_sizes cat.now x.now y.now) }
{
    let mut counts = Row::new(alloc);
    for c in 0..cat.objects() {
        counts.push(x.size(c) as u64 * y.size(c) as u64)?;
    }
    Ok(counts)
}

// The parts of all pairs of a number below a and one below b, in lexicographic order.
fn parts(alloc: Global, a: u32, b: u32) -> Result<(Row<u32>, Row<u32>), NoMemory>
    ensures first { IfOk result (λ parts. parts.0 ≡ firsts (λ _. range_with_len 0 b) a) }
    ensures second { IfOk result (λ parts. parts.1 ≡ seconds (λ _. range_with_len 0 b) a) }
{
    let mut first = Row::new(alloc);
    let mut second = Row::new(alloc);
    for x in 0..a {
        for y in 0..b {
            first.push(x)?;
            second.push(y)?;
        }
    }
    Ok((first, second))
}

// How many pairs stand before those of each number below a.
fn multiples(alloc: Global, a: u32, b: u32) -> Result<Row<u32>, NoMemory>
    requires { a * b < 2 ^ 32 }
    ensures { IfOk result (λ row. row ≡ starts (λ _. range_with_len 0 b) a) }
{
    let mut row = Row::new(alloc);
    for x in 0..a {
        row.push(x * b)?;
    }
    Ok(row)
}

// The numbers below the size, in order.
fn numbers(alloc: Global, size: u32) -> Result<Row<u32>, NoMemory>
    ensures { IfOk result (λ row. row ≡ range_with_len 0 size) }
{
    let mut row = Row::new(alloc);
    for y in 0..size {
        row.push(y)?;
    }
    Ok(row)
}

// The pairs at each object.
fn all_pairs(alloc: Global, cat: &Cat, x: &Functor, y: &Functor) -> Result<Pairs, NoMemory>
    requires first { length x.now.sizes ≡ cat.now.objects }
    requires second { length y.now.sizes ≡ cat.now.objects }
    requires few { (c : ℕ) → c < cat.now.objects → size x.now c * size y.now c < 2 ^ 32 }
    ensures first { IfOk result (λ pairs. pairs.first ≡ first_parts cat.now x.now (whole_fibres y.now)) }
    ensures second { IfOk result (λ pairs. pairs.second ≡ second_parts cat.now x.now (whole_fibres y.now)) }
    ensures starts { IfOk result (λ pairs. pairs.starts ≡ start_rows cat.now x.now (whole_fibres y.now)) }
    ensures places { IfOk result (λ pairs. pairs.places ≡ place_rows cat.now (whole_places y.now)) }
{
    let mut first = Row::new(alloc);
    let mut second = Row::new(alloc);
    let mut starts = Row::new(alloc);
    let mut places = Row::new(alloc);
    for c in 0..cat.objects() {
        let a = x.size(c);
        let b = y.size(c);
        let (left, right) = parts(alloc, a, b)?;
        let start = multiples(alloc, a, b)?;
        let place = numbers(alloc, b)?;
        first.push(left)?;
        second.push(right)?;
        starts.push(start)?;
        places.push(place)?;
    }
    Ok(Pairs {
        first,
        second,
        starts,
        places,
    })
}

/// The product of x and y with its projections: the pairs of an element of x and one of y, in lexicographic order (Mac Lane and Moerdijk, Categorical
/// Preliminaries). Over comes exactly where it has more cells than there is room for.
pub fn product(
    alloc: Global,
    cat: &Cat,
    x: &Functor,
    y: &Functor,
    room: u64,
) -> Result<Made2, NoMemory>
    requires first { IsFunctor cat.now x.now }
    requires second { IsFunctor cat.now y.now }
    requires room { room ≤ max_room }
    ensures product { IfOk result (λ made. IfMade2 made (IsProduct cat.now x.now y.now)) }
    ensures room { IfOk result (λ made. IfMade2 made (λ Z _ _. presheaf_cells cat.now Z ≤ room)) }
    ensures over { IfOk result (λ made. IfOver2 made ((Z : Presheaf) (p q : Components) → IsProduct cat.now x.now y.now Z p q → IsOverRoom cat.now room Z)) }
    ensures exists { IfOk result (λ made. IfOver2 made ((Z : Presheaf) × (p : Components) × (q : Components) × IsProduct cat.now x.now y.now Z p q)) }
    ensures lawful { IfOk result (λ _. IsCategory cat.now) }
{
    let counts = counts(alloc, cat, x, y)?;
    match sizes_within(alloc, cat, counts.as_slice(), room)? {
        None => Ok(Made2::Over),
        Some(sizes) => {
            let pairs = all_pairs(alloc, cat, x, y)?;
            let (functor, first, second) = paired(alloc, cat, x, y, sizes, pairs)?;
            Ok(Made2::Made(functor, first, second))
        }
    }
}
