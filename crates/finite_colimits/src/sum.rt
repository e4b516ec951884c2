// Coproducts: the elements of one presheaf and then those of another.
ghost use Rattle.std.specs.Prelude.{◌≡◌, ◌≤◌, ◌<◌, ◌+◌, ◌++◌, ◌^◌, ℕ, [], map, length, get_or, IfOk};
ghost use Rattle.std.specs.List.{range_with_len};
ghost use Rattle.topos_model.specs.types.Types.{Presheaf};
ghost use Rattle.topos_model.specs.Laws.{IsCategory, IsFunctor};
ghost use Rattle.topos_model.specs.presheaves.Maps.{Components};
ghost use Rattle.topos_model.specs.statements.Cells.{presheaf_cells};
ghost use Rattle.topos_model.specs.presheaves.Colimits.{IsCoproduct};
ghost use Rattle.natural_maps.specs.Made.{IfMade2, IfOver2};
ghost use Rattle.natural_maps.specs.Room.{max_room, IsOverRoom};
ghost use Rattle.finite_colimits.specs.Sums.{sum_sizes, sum_row, sum_presheaf, first_inclusion, second_inclusion, AreFew};

use fin_category::Cat;
use natural_maps::{Made2, NatMap, sizes_within};
use presheaf_core::Functor;
use std::alloc::Global;
use topos_model::{NoMemory, Row};

// How many elements both have at each object.
fn counts(alloc: Global, cat: &Cat, x: &Functor, y: &Functor) -> Result<Row<u64>, NoMemory>
    requires first { length x.now.sizes ≡ cat.now.objects }
    requires second { length y.now.sizes ≡ cat.now.objects }
    ensures { IfOk result (λ counts. counts ≡ sum_sizes cat.now x.now y.now) }
{
    let mut counts = Row::new(alloc);
    for c in 0..cat.objects() {
        counts.push(x.size(c) as u64 + y.size(c) as u64)?;
    }
    Ok(counts)
}

// The first numbers, and then the second, each greater by so much.
fn appended(alloc: Global, first: &[u32], second: &[u32], by: u32) -> Result<Row<u32>, NoMemory>
    requires small { (i : ℕ) → i < length second.now → by + get_or second.now i 0 < 2 ^ 32 }
    ensures { IfOk result (λ row. row ≡ first.now ++ map (λ y. by + y) second.now) }
{
    let mut row = Row::new(alloc);
    for x in first {
        row.push(*x)?;
    }
    for y in second {
        row.push(by + *y)?;
    }
    Ok(row)
}

// The restrictions along each arrow.
fn sum_restrictions(
    alloc: Global,
    cat: &Cat,
    x: &Functor,
    y: &Functor,
) -> Result<Row<Row<u32>>, NoMemory>
    requires first { IsFunctor cat.now x.now }
    requires second { IsFunctor cat.now y.now }
    requires few { AreFew cat.now x.now y.now }
    ensures { IfOk result (λ rows. rows ≡ map (sum_row cat.now x.now y.now) (range_with_len 0 (length cat.now.ends))) }
{
    let mut rows = Row::new(alloc);
    for f in 0..cat.arrows() {
        rows.push(appended(alloc, x.row(f), y.row(f), x.size(cat.dom(f)))?)?;
    }
    Ok(rows)
}

// So many numbers, from a first one on.
fn run(alloc: Global, first: u32, count: u32) -> Result<Row<u32>, NoMemory>
    requires { first + count < 2 ^ 32 }
    ensures { IfOk result (λ row. row ≡ range_with_len first count) }
{
    let mut row = Row::new(alloc);
    for i in 0..count {
        row.push(first + i)?;
    }
    Ok(row)
}

// The elements of the first as elements of the sum.
fn first_rows(alloc: Global, cat: &Cat, x: &Functor) -> Result<Row<Row<u32>>, NoMemory>
    requires { length x.now.sizes ≡ cat.now.objects }
    ensures { IfOk result (λ rows. rows ≡ first_inclusion cat.now x.now) }
{
    let mut rows = Row::new(alloc);
    for c in 0..cat.objects() {
        rows.push(run(alloc, 0, x.size(c))?)?;
    }
    Ok(rows)
}

// The elements of the second as elements of the sum.
fn second_rows(
    alloc: Global,
    cat: &Cat,
    x: &Functor,
    y: &Functor,
) -> Result<Row<Row<u32>>, NoMemory>
    requires first { length x.now.sizes ≡ cat.now.objects }
    requires second { length y.now.sizes ≡ cat.now.objects }
    requires few { AreFew cat.now x.now y.now }
    ensures { IfOk result (λ rows. rows ≡ second_inclusion cat.now x.now y.now) }
{
    let mut rows = Row::new(alloc);
    for c in 0..cat.objects() {
        rows.push(run(alloc, x.size(c), y.size(c))?)?;
    }
    Ok(rows)
}

// The sum with these sizes, and its inclusions.
pub(crate) fn summed(
    alloc: Global,
    cat: &Cat,
    x: &Functor,
    y: &Functor,
    sizes: Row<u32>,
) -> Result<(Functor, NatMap, NatMap), NoMemory>
    requires lawful { IsCategory cat.now }
    requires first { IsFunctor cat.now x.now }
    requires second { IsFunctor cat.now y.now }
    requires few { AreFew cat.now x.now y.now }
    requires sizes { sizes ≡ sum_sizes cat.now x.now y.now }
    ensures sum { IfOk result (λ made. made.0 ≡ sum_presheaf cat.now x.now y.now) }
    ensures first { IfOk result (λ made. made.1 ≡ first_inclusion cat.now x.now) }
    ensures second { IfOk result (λ made. made.2 ≡ second_inclusion cat.now x.now y.now) }
{
    let along = sum_restrictions(alloc, cat, x, y)?;
    let first = first_rows(alloc, cat, x)?;
    let second = second_rows(alloc, cat, x, y)?;
    let sum = Functor::from_rows(cat, sizes, along);
    let i = NatMap::from_rows(cat, x, &sum, first);
    let j = NatMap::from_rows(cat, y, &sum, second);
    Ok((sum, i, j))
}

/// The coproduct of x and y with its inclusions: the elements of x and then those of y (Mac Lane and Moerdijk, Categorical Preliminaries).
/// Over comes exactly where it has more cells than there is room for.
pub fn coproduct(
    alloc: Global,
    cat: &Cat,
    x: &Functor,
    y: &Functor,
    room: u64,
) -> Result<Made2, NoMemory>
    requires first { IsFunctor cat.now x.now }
    requires second { IsFunctor cat.now y.now }
    requires room { room ≤ max_room }
    ensures coproduct { IfOk result (λ made. IfMade2 made (IsCoproduct cat.now x.now y.now)) }
    ensures room { IfOk result (λ made. IfMade2 made (λ Z _ _. presheaf_cells cat.now Z ≤ room)) }
    ensures over { IfOk result (λ made. IfOver2 made ((Z : Presheaf) (i j : Components) → IsCoproduct cat.now x.now y.now Z i j → IsOverRoom cat.now room Z)) }
    ensures exists { IfOk result (λ made. IfOver2 made ((Z : Presheaf) × (i : Components) × (j : Components) × IsCoproduct cat.now x.now y.now Z i j)) }
{
    let counts = counts(alloc, cat, x, y)?;
    match sizes_within(alloc, cat, counts.as_slice(), room)? {
        None => Ok(Made2::Over),
        Some(sizes) => {
            let (sum, i, j) = summed(alloc, cat, x, y, sizes)?;
            Ok(Made2::Made(sum, i, j))
        }
    }
}
