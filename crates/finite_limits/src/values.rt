// Images: the values of a map.
ghost use Rattle.std.specs.Prelude.{◌≡◌, ◌≤◌, ◌<◌, ℕ, length, get_or, IfOk};
ghost use Rattle.topos_model.specs.types.Types.{Presheaf};
ghost use Rattle.topos_model.specs.Laws.{IsCategory, IsFunctor};
ghost use Rattle.topos_model.specs.presheaves.Maps.{Components, component, apply, after_component, IsNatural};
ghost use Rattle.topos_model.specs.presheaves.Limits.{IsImage};
ghost use Rattle.topos_model.specs.statements.Cells.{presheaf_cells};
ghost use Rattle.natural_maps.specs.Made.{IfMade2, IfOver2};
ghost use Rattle.natural_maps.specs.Room.{max_room, IsOverRoom};
ghost use Rattle.finite_limits.specs.Kept.{AreKept, AreKeptRows, AreValuesMarked, IsValue, value_places};

use crate::kept::{kept, part};
use fin_category::Cat;
use natural_maps::{Made2, NatMap};
use presheaf_core::Functor;
use std::alloc::Global;
use topos_model::{Bits, NoMemory, Row};

// Marks the values of m among the numbers below the size.
fn marked(alloc: Global, m: &[u32], size: u32) -> Result<Bits, NoMemory>
    requires { (x : ℕ) → x < length m.now → get_or m.now x 0 < size }
    ensures { IfOk result (λ marks. AreValuesMarked (length m.now) m.now size marks) }
{
    let mut marks = Bits::new(alloc, size as usize)?;
    for y in m {
        marks.set(*y as usize, true);
    }
    Ok(marks)
}

// The values of m, in order, and the place of each of them.
fn values(alloc: Global, m: &[u32], size: u32) -> Result<(Row<u32>, Row<u32>), NoMemory>
    requires { (x : ℕ) → x < length m.now → get_or m.now x 0 < size }
    ensures { IfOk result (λ kept. AreKept (IsValue m.now) size kept.0 kept.1) }
{
    let marks = marked(alloc, m, size)?;
    kept(alloc, &marks, size)
}

// The same at each object.
fn value_rows(
    alloc: Global,
    cat: &Cat,
    x: &Functor,
    y: &Functor,
    m: &NatMap,
) -> Result<(Row<Row<u32>>, Row<Row<u32>>), NoMemory>
    requires functor { IsFunctor cat.now y.now }
    requires natural { IsNatural cat.now x.now y.now m.now }
    ensures rows { IfOk result (λ rows. AreKeptRows (λ c y. IsValue (component m.now c) y) cat.now.objects y.now.sizes rows.0 rows.1) }
    ensures lawful { IsCategory cat.now }
{
    let _ = x;
    let mut elements = Row::new(alloc);
    let mut ranks = Row::new(alloc);
    for c in 0..cat.objects() {
        let (element, rank) = values(alloc, m.row(c), y.size(c))?;
        elements.push(element)?;
        ranks.push(rank)?;
    }
    Ok((elements, ranks))
}

// The places of the values of m.
fn places(alloc: Global, ranks: &[u32], m: &[u32]) -> Result<Row<u32>, NoMemory>
    requires { (x : ℕ) → x < length m.now → get_or m.now x 0 < length ranks.now }
    ensures { IfOk result (λ row. row ≡ after_component ranks.now m.now) }
{
    let mut row = Row::new(alloc);
    for y in m {
        row.push(ranks[*y as usize])?;
    }
    Ok(row)
}

// The same at each object.
fn place_rows(
    alloc: Global,
    cat: &Cat,
    m: &NatMap,
    ranks: &Row<Row<u32>>,
) -> Result<Row<Row<u32>>, NoMemory>
    requires objects { length m.now ≡ cat.now.objects }
    requires ranks { length ranks.now ≡ cat.now.objects }
    requires within { (c x : ℕ) → c < cat.now.objects → x < length (component m.now c) → apply m.now c x < length (component ranks.now c) }
    ensures { IfOk result (λ rows. rows ≡ value_places cat.now ranks.now m.now) }
{
    let mut rows = Row::new(alloc);
    for c in 0..cat.objects() {
        let rank = ranks.get(c as usize).as_slice();
        rows.push(places(alloc, rank, m.row(c))?)?;
    }
    Ok(rows)
}

/// The image of m from x to y, with the map of x onto it and its inclusion in y: the elements of y that are values of m, in the order of y (Mac Lane and Moerdijk,
/// Chapter IV). Over comes exactly where it has more cells than there is room for.
pub fn image(
    alloc: Global,
    cat: &Cat,
    x: &Functor,
    y: &Functor,
    m: &NatMap,
    room: u64,
) -> Result<Made2, NoMemory>
    requires domain { IsFunctor cat.now x.now }
    requires codomain { IsFunctor cat.now y.now }
    requires natural { IsNatural cat.now x.now y.now m.now }
    requires room { room ≤ max_room }
    ensures image { IfOk result (λ made. IfMade2 made (IsImage cat.now x.now y.now m.now)) }
    ensures room { IfOk result (λ made. IfMade2 made (λ Z _ _. presheaf_cells cat.now Z ≤ room)) }
    ensures over { IfOk result (λ made. IfOver2 made ((Z : Presheaf) (e j : Components) → IsImage cat.now x.now y.now m.now Z e j → IsOverRoom cat.now room Z)) }
    ensures exists { IfOk result (λ made. IfOver2 made ((Z : Presheaf) × (e : Components) × (j : Components) × IsImage cat.now x.now y.now m.now Z e j)) }
    ensures lawful { IfOk result (λ _. IsCategory cat.now) }
{
    let (elements, ranks) = value_rows(alloc, cat, x, y, m)?;
    match part(alloc, cat, y, &elements, &ranks, room)? {
        None => Ok(Made2::Over),
        Some(part) => {
            let places = place_rows(alloc, cat, m, &ranks)?;
            let onto = NatMap::from_rows(cat, x, &part, places);
            let inclusion = NatMap::from_rows(cat, &part, y, elements);
            Ok(Made2::Made(part, onto, inclusion))
        }
    }
}
