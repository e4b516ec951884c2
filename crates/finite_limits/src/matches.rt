// Pullbacks: the pairs of elements that two maps take to one element. The elements of the second domain are threaded by their values once, so that the partners of
// each element of the first are found without a search.
ghost use Rattle.std.specs.Prelude.{◌≡◌, ◌≤◌, ◌<◌, ◌^◌, ℕ, length, get_or, replicate, IfOk};
ghost use Rattle.std.specs.List.{range_with_len, sum_by};
ghost use Rattle.topos_model.specs.types.Types.{Presheaf};
ghost use Rattle.topos_model.specs.Laws.{IsCategory, IsFunctor, size};
ghost use Rattle.topos_model.specs.presheaves.Maps.{Components, IsNatural};
ghost use Rattle.topos_model.specs.presheaves.Limits.{IsPullback};
ghost use Rattle.topos_model.specs.statements.Cells.{presheaf_cells};
ghost use Rattle.natural_maps.specs.Made.{IfMade2, IfOver2};
ghost use Rattle.natural_maps.specs.Room.{max_room, IsOverRoom};
ghost use Rattle.finite_limits.specs.Pairs.{firsts, seconds, starts, first_parts, second_parts, start_rows, place_rows};
ghost use Rattle.finite_limits.specs.Matches.{places_by_value, value_counts, matching, match_fibres, match_places, match_sizes, AreThreads};

use crate::pairing::{Pairs, paired};
use fin_category::Cat;
use natural_maps::{Made2, NatMap, sizes_within};
use presheaf_core::Functor;
use std::alloc::Global;
use topos_model::{NoMemory, Row};

// So many times one number.
fn filled(alloc: Global, count: u32, value: u32) -> Result<Vec<u32>, NoMemory>
    ensures { IfOk result (λ row. row.items ≡ replicate count value) }
{
    let mut row = Vec::new(alloc);
    row.resize(count as usize, value)?;
    Ok(row)
}

// For each number how many before it n takes to its value, and how many numbers n takes to each value.
fn counted(
    alloc: Global,
    n: &[u32],
    size: u32,
    values: u32,
) -> Result<(Row<u32>, Vec<u32>), NoMemory>
    requires long { length n.now ≡ size }
    requires within { (y : ℕ) → y < length n.now → get_or n.now y 0 < values }
    ensures places { IfOk result (λ counted. counted.0 ≡ places_by_value n.now) }
    ensures counts { IfOk result (λ counted. counted.1.items ≡ value_counts n.now values) }
{
    let mut places = Row::new(alloc);
    let mut counts = filled(alloc, values, 0)?;
    for y in 0..size {
        let v = n[y as usize] as usize;
        places.push(counts[v])?;
        counts[v] += 1;
    }
    Ok((places, counts))
}

// How many pairs there are of a number and one with the same value, by the counts of the values.
fn pair_count(m: &[u32], size: u32, counts: &[u32]) -> u64
    requires long { length m.now ≡ size }
    requires within { (x : ℕ) → x < length m.now → get_or m.now x 0 < length counts.now }
    ensures { result ≡ sum_by (λ x. get_or counts.now (get_or m.now x 0) 0) (range_with_len 0 size) }
{
    let mut count = 0;
    for x in 0..size {
        count += counts[m[x as usize] as usize] as u64;
    }
    count
}

// The first number with each value, and the one after each with the same value.
fn threads(
    alloc: Global,
    n: &[u32],
    size: u32,
    values: u32,
) -> Result<(Vec<u32>, Vec<u32>), NoMemory>
    requires long { length n.now ≡ size }
    requires within { (y : ℕ) → y < length n.now → get_or n.now y 0 < values }
    ensures { IfOk result (λ threads. AreThreads n.now values 0 threads.0.items threads.1.items) }
{
    let mut heads = filled(alloc, values, size)?;
    let mut next = filled(alloc, size, size)?;
    for y in (0..size).rev() {
        let v = n[y as usize] as usize;
        next[y as usize] = heads[v];
        heads[v] = y;
    }
    Ok((heads, next))
}

// The parts of the pairs of a number and one with the same value, in lexicographic order, and how many of them stand before those of each number.
fn matched(
    alloc: Global,
    m: &[u32],
    size: u32,
    n: &[u32],
    heads: &[u32],
    next: &[u32],
) -> Result<(Row<u32>, Row<u32>, Row<u32>), NoMemory>
    requires long { length m.now ≡ size }
    requires within { (x : ℕ) → x < length m.now → get_or m.now x 0 < length heads.now }
    requires threads { AreThreads n.now (length heads.now) 0 heads.now next.now }
    requires few { length (seconds (matching m.now n.now) size) < 2 ^ 32 }
    ensures first { IfOk result (λ pairs. pairs.0 ≡ firsts (matching m.now n.now) size) }
    ensures second { IfOk result (λ pairs. pairs.1 ≡ seconds (matching m.now n.now) size) }
    ensures starts { IfOk result (λ pairs. pairs.2 ≡ starts (matching m.now n.now) size) }
{
    let mut first = Row::new(alloc);
    let mut second = Row::new(alloc);
    let mut starts = Row::new(alloc);
    for x in 0..size {
        starts.push(first.len() as u32)?;
        let mut y = heads[m[x as usize] as usize];
        'walk: while (y as usize) < n.len() {
            first.push(x)?;
            second.push(y)?;
            y = next[y as usize];
        }
    }
    Ok((first, second, starts))
}

// How many pairs there are at each object, and the place of each element of y among those with its value.
fn counted_rows(
    alloc: Global,
    cat: &Cat,
    x: &Functor,
    y: &Functor,
    z: &Functor,
    m: &NatMap,
    n: &NatMap,
) -> Result<(Row<u64>, Row<Row<u32>>), NoMemory>
    requires left { IsFunctor cat.now x.now }
    requires right { IsFunctor cat.now y.now }
    requires codomain { IsFunctor cat.now z.now }
    requires first { IsNatural cat.now x.now z.now m.now }
    requires second { IsNatural cat.now y.now z.now n.now }
    ensures counts { IfOk result (λ counted. counted.0 ≡ match_sizes cat.now x.now m.now n.now) }
    ensures places { IfOk result (λ counted. counted.1 ≡ place_rows cat.now (match_places n.now)) }
{
    let mut counts = Row::new(alloc);
    let mut places = Row::new(alloc);
    for c in 0..cat.objects() {
        let (place, values) = counted(alloc, n.row(c), y.size(c), z.size(c))?;
        counts.push(pair_count(m.row(c), x.size(c), &values))?;
        places.push(place)?;
    }
    Ok((counts, places))
}

// The pairs at each object.
fn matches(
    alloc: Global,
    cat: &Cat,
    x: &Functor,
    y: &Functor,
    z: &Functor,
    m: &NatMap,
    n: &NatMap,
    places: Row<Row<u32>>,
) -> Result<Pairs, NoMemory>
    requires left { IsFunctor cat.now x.now }
    requires right { IsFunctor cat.now y.now }
    requires codomain { IsFunctor cat.now z.now }
    requires first { IsNatural cat.now x.now z.now m.now }
    requires second { IsNatural cat.now y.now z.now n.now }
    requires few { (c : ℕ) → c < cat.now.objects → length (seconds (match_fibres m.now n.now c) (size x.now c)) < 2 ^ 32 }
    ensures first { IfOk result (λ pairs. pairs.first ≡ first_parts cat.now x.now (match_fibres m.now n.now)) }
    ensures second { IfOk result (λ pairs. pairs.second ≡ second_parts cat.now x.now (match_fibres m.now n.now)) }
    ensures starts { IfOk result (λ pairs. pairs.starts ≡ start_rows cat.now x.now (match_fibres m.now n.now)) }
    ensures places { IfOk result (λ pairs. pairs.places ≡ places) }
{
    let mut first = Row::new(alloc);
    let mut second = Row::new(alloc);
    let mut starts = Row::new(alloc);
    for c in 0..cat.objects() {
        let to = n.row(c);
        let (heads, next) = threads(alloc, to, y.size(c), z.size(c))?;
        let (left, right, start) = matched(alloc, m.row(c), x.size(c), to, &heads, &next)?;
        first.push(left)?;
        second.push(right)?;
        starts.push(start)?;
    }
    Ok(Pairs {
        first,
        second,
        starts,
        places,
    })
}

/// The pullback of m from x to z and n from y to z with its projections: the pairs of an element of x and one of y that m and n take to one element, in
/// lexicographic order (Mac Lane and Moerdijk, Categorical Preliminaries). Over comes exactly where it has more cells than there is room for.
pub fn pullback(
    alloc: Global,
    cat: &Cat,
    x: &Functor,
    y: &Functor,
    z: &Functor,
    m: &NatMap,
    n: &NatMap,
    room: u64,
) -> Result<Made2, NoMemory>
    requires left { IsFunctor cat.now x.now }
    requires right { IsFunctor cat.now y.now }
    requires codomain { IsFunctor cat.now z.now }
    requires first { IsNatural cat.now x.now z.now m.now }
    requires second { IsNatural cat.now y.now z.now n.now }
    requires room { room ≤ max_room }
    ensures pullback { IfOk result (λ made. IfMade2 made (IsPullback cat.now x.now y.now z.now m.now n.now)) }
    ensures room { IfOk result (λ made. IfMade2 made (λ Z _ _. presheaf_cells cat.now Z ≤ room)) }
    ensures over { IfOk result (λ made. IfOver2 made ((Z : Presheaf) (p q : Components) → IsPullback cat.now x.now y.now z.now m.now n.now Z p q → IsOverRoom cat.now room Z)) }
    ensures exists { IfOk result (λ made. IfOver2 made ((Z : Presheaf) × (p : Components) × (q : Components) × IsPullback cat.now x.now y.now z.now m.now n.now Z p q)) }
    ensures lawful { IfOk result (λ _. IsCategory cat.now) }
{
    let (counts, places) = counted_rows(alloc, cat, x, y, z, m, n)?;
    match sizes_within(alloc, cat, counts.as_slice(), room)? {
        None => Ok(Made2::Over),
        Some(sizes) => {
            let pairs = matches(alloc, cat, x, y, z, m, n, places)?;
            let (functor, first, second) = paired(alloc, cat, x, y, sizes, pairs)?;
            Ok(Made2::Made(functor, first, second))
        }
    }
}
