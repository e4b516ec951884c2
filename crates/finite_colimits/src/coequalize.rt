// Coequalizers: the presheaf of the classes under the pairs (m(x), n(x)).
ghost use Rattle.std.specs.Prelude.{◌≡◌, ◌≤◌, ◌<◌, ℕ, [], map, length, get_or, IfOk};
ghost use Rattle.std.specs.List.{range_with_len};
ghost use Rattle.topos_model.specs.types.Types.{Presheaf};
ghost use Rattle.topos_model.specs.Laws.{IsCategory, IsFunctor};
ghost use Rattle.topos_model.specs.presheaves.Maps.{Components, IsNatural};
ghost use Rattle.topos_model.specs.statements.Cells.{presheaf_cells};
ghost use Rattle.topos_model.specs.presheaves.Colimits.{IsCoequalizer};
ghost use Rattle.natural_maps.specs.Made.{IfMade1, IfOver1};
ghost use Rattle.natural_maps.specs.Room.{max_room, IsOverRoom};
ghost use Rattle.finite_colimits.specs.Classes.{AreClassRows, class_row};

use crate::numbering::classes;
use fin_category::Cat;
use natural_maps::{Made1, NatMap, lengths, sizes_within};
use presheaf_core::Functor;
use std::alloc::Global;
use topos_model::{NoMemory, Row};

// The class of each element and the least member of each class, at each object.
fn class_rows(
    alloc: Global,
    cat: &Cat,
    x: &Functor,
    y: &Functor,
    m: &NatMap,
    n: &NatMap,
) -> Result<(Row<Row<u32>>, Row<Row<u32>>), NoMemory>
    requires functor { IsFunctor cat.now y.now }
    requires first { IsNatural cat.now x.now y.now m.now }
    requires second { IsNatural cat.now x.now y.now n.now }
    ensures { IfOk result (λ rows. AreClassRows cat.now.objects y.now.sizes m.now n.now rows.0 rows.1) }
{
    let _ = x;
    let mut numbers = Row::new(alloc);
    let mut least = Row::new(alloc);
    for c in 0..cat.objects() {
        let (number, first) = classes(alloc, m.row(c), n.row(c), y.size(c))?;
        numbers.push(number)?;
        least.push(first)?;
    }
    Ok((numbers, least))
}

// The class to which each class is restricted, by the restrictions of its least member.
fn restricted(
    alloc: Global,
    least: &[u32],
    along: &[u32],
    numbers: &[u32],
) -> Result<Row<u32>, NoMemory>
    requires members { (t : ℕ) → t < length least.now → get_or least.now t 0 < length along.now }
    requires within { (y : ℕ) → y < length along.now → get_or along.now y 0 < length numbers.now }
    ensures { IfOk result (λ row. row ≡ map (λ y. get_or numbers.now (get_or along.now y 0) 0) least.now) }
{
    let mut row = Row::new(alloc);
    for y in least {
        row.push(numbers[along[*y as usize] as usize])?;
    }
    Ok(row)
}

// The restrictions of the classes along each arrow.
fn class_restrictions(
    alloc: Global,
    cat: &Cat,
    y: &Functor,
    m: &NatMap,
    n: &NatMap,
    numbers: &Row<Row<u32>>,
    least: &Row<Row<u32>>,
) -> Result<Row<Row<u32>>, NoMemory>
    requires functor { IsFunctor cat.now y.now }
    requires classes { AreClassRows cat.now.objects y.now.sizes m.now n.now numbers.now least.now }
    ensures { IfOk result (λ rows. rows ≡ map (class_row cat.now y.now numbers.now least.now) (range_with_len 0 (length cat.now.ends))) }
{
    let _ = m;
    let _ = n;
    let mut rows = Row::new(alloc);
    for f in 0..cat.arrows() {
        let from = least.get(cat.cod(f) as usize).as_slice();
        let to = numbers.get(cat.dom(f) as usize).as_slice();
        rows.push(restricted(alloc, from, y.row(f), to)?)?;
    }
    Ok(rows)
}

/// The coequalizer of m and n from x to y with its quotient map: the classes of the elements of y under the pairs (m(x), n(x)), in the order of their least
/// members (Mac Lane and Moerdijk, Categorical Preliminaries). Over comes exactly where it has more cells than there is room for.
pub fn coequalizer(
    alloc: Global,
    cat: &Cat,
    x: &Functor,
    y: &Functor,
    m: &NatMap,
    n: &NatMap,
    room: u64,
) -> Result<Made1, NoMemory>
    requires domain { IsFunctor cat.now x.now }
    requires codomain { IsFunctor cat.now y.now }
    requires first { IsNatural cat.now x.now y.now m.now }
    requires second { IsNatural cat.now x.now y.now n.now }
    requires room { room ≤ max_room }
    ensures coequalizer { IfOk result (λ made. IfMade1 made (IsCoequalizer cat.now x.now y.now m.now n.now)) }
    ensures room { IfOk result (λ made. IfMade1 made (λ Z _. presheaf_cells cat.now Z ≤ room)) }
    ensures over { IfOk result (λ made. IfOver1 made ((Z : Presheaf) (q : Components) → IsCoequalizer cat.now x.now y.now m.now n.now Z q → IsOverRoom cat.now room Z)) }
    ensures exists { IfOk result (λ made. IfOver1 made ((Z : Presheaf) × (q : Components) × IsCoequalizer cat.now x.now y.now m.now n.now Z q)) }
    ensures lawful { IfOk result (λ _. IsCategory cat.now) }
{
    let (numbers, least) = class_rows(alloc, cat, x, y, m, n)?;
    let counts = lengths(alloc, &least)?;
    match sizes_within(alloc, cat, counts.as_slice(), room)? {
        None => Ok(Made1::Over),
        Some(sizes) => {
            let along = class_restrictions(alloc, cat, y, m, n, &numbers, &least)?;
            let classes = Functor::from_rows(cat, sizes, along);
            let quotient = NatMap::from_rows(cat, y, &classes, numbers);
            Ok(Made1::Made(classes, quotient))
        }
    }
}
