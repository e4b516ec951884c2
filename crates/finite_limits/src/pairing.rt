// Pairs of elements of two presheaves, and the presheaf of them.
ghost use Rattle.std.specs.Prelude.{◌≡◌, map, length, IfOk};
ghost use Rattle.std.specs.List.{range_with_len};
ghost use Rattle.topos_model.specs.Laws.{IsCategory, IsFunctor};
ghost use Rattle.finite_limits.specs.Pairs.{IsPaired, AreRestricted, restricted_pair, pair_row, pair_presheaf, AreFewPairs};

use fin_category::Cat;
use natural_maps::NatMap;
use presheaf_core::Functor;
use std::alloc::Global;
use topos_model::{NoMemory, Row};

// The pairs at each object: their two parts, and the tables by which the pair (x, y) has the number starts(x) + places(y).
#[derive(Drop)]
pub(crate) struct Pairs {
    pub(crate) first: Row<Row<u32>>,
    pub(crate) second: Row<Row<u32>>,
    pub(crate) starts: Row<Row<u32>>,
    pub(crate) places: Row<Row<u32>>,
}

// The numbers of the pairs to which the pairs are restricted.
fn restricted(
    alloc: Global,
    first: &[u32],
    second: &[u32],
    along_x: &[u32],
    along_y: &[u32],
    starts: &[u32],
    places: &[u32],
) -> Result<Row<u32>, NoMemory>
    requires { AreRestricted first.now second.now along_x.now along_y.now starts.now places.now }
    ensures { IfOk result (λ row. row ≡ map (restricted_pair first.now second.now along_x.now along_y.now starts.now places.now) (range_with_len 0 (length first.now))) }
{
    let mut row = Row::new(alloc);
    for t in 0..first.len() {
        let x = along_x[first[t] as usize];
        let y = along_y[second[t] as usize];
        row.push(starts[x as usize] + places[y as usize])?;
    }
    Ok(row)
}

// The restrictions of the pairs along each arrow.
fn pair_restrictions(
    alloc: Global,
    cat: &Cat,
    x: &Functor,
    y: &Functor,
    pairs: &Pairs,
) -> Result<Row<Row<u32>>, NoMemory>
    requires first { IsFunctor cat.now x.now }
    requires second { IsFunctor cat.now y.now }
    requires paired { IsPaired cat.now x.now y.now pairs.now.first pairs.now.second pairs.now.starts pairs.now.places }
    requires few { AreFewPairs cat.now pairs.now.first }
    ensures rows { IfOk result (λ rows. rows ≡ map (pair_row cat.now x.now y.now pairs.now.first pairs.now.second pairs.now.starts pairs.now.places) (range_with_len 0 (length cat.now.ends))) }
    ensures lawful { IsCategory cat.now }
{
    let mut rows = Row::new(alloc);
    for f in 0..cat.arrows() {
        let from = cat.cod(f) as usize;
        let to = cat.dom(f) as usize;
        let first = pairs.first.get(from).as_slice();
        let second = pairs.second.get(from).as_slice();
        let starts = pairs.starts.get(to).as_slice();
        let places = pairs.places.get(to).as_slice();
        rows.push(restricted(alloc, first, second, x.row(f), y.row(f), starts, places)?)?;
    }
    Ok(rows)
}

// The presheaf of the pairs, which has these sizes, and its maps to x and to y.
pub(crate) fn paired(
    alloc: Global,
    cat: &Cat,
    x: &Functor,
    y: &Functor,
    sizes: Row<u32>,
    pairs: Pairs,
) -> Result<(Functor, NatMap, NatMap), NoMemory>
    requires first { IsFunctor cat.now x.now }
    requires second { IsFunctor cat.now y.now }
    requires paired { IsPaired cat.now x.now y.now pairs.first pairs.second pairs.starts pairs.places }
    requires few { AreFewPairs cat.now pairs.first }
    requires sizes { sizes ≡ map length pairs.first }
    ensures functor { IfOk result (λ made. made.0 ≡ pair_presheaf cat.now x.now y.now pairs.first pairs.second pairs.starts pairs.places) }
    ensures first { IfOk result (λ made. made.1 ≡ pairs.first) }
    ensures second { IfOk result (λ made. made.2 ≡ pairs.second) }
{
    let along = pair_restrictions(alloc, cat, x, y, &pairs)?;
    let functor = Functor::from_rows(cat, sizes, along);
    let first = NatMap::from_rows(cat, &functor, x, pairs.first);
    let second = NatMap::from_rows(cat, &functor, y, pairs.second);
    Ok((functor, first, second))
}
