// Equalizers: the elements at which two maps agree.
ghost use Rattle.std.specs.Prelude.{◌≡◌, ◌≤◌, ℕ, length, get_or, eqb, IfOk};
ghost use Rattle.topos_model.specs.types.Types.{Presheaf};
ghost use Rattle.topos_model.specs.Laws.{IsCategory, IsFunctor};
ghost use Rattle.topos_model.specs.presheaves.Maps.{Components, apply, IsNatural};
ghost use Rattle.topos_model.specs.presheaves.Limits.{IsEqualizer};
ghost use Rattle.topos_model.specs.statements.Cells.{presheaf_cells};
ghost use Rattle.presheaf_core.specs.Tables.{IsTable};
ghost use Rattle.natural_maps.specs.Made.{IfMade1, IfOver1};
ghost use Rattle.natural_maps.specs.Room.{max_room, IsOverRoom};
ghost use Rattle.finite_limits.specs.Kept.{AreKept, AreKeptRows};

use crate::kept::{kept, part};
use fin_category::Cat;
use natural_maps::{Made1, NatMap};
use presheaf_core::Functor;
use std::alloc::Global;
use topos_model::{Bits, NoMemory, Row};

// Marks the numbers at which both have one value.
fn agreements(alloc: Global, m: &[u32], n: &[u32]) -> Result<Bits, NoMemory>
    requires { length n.now ≡ length m.now }
    ensures { IfOk result (IsTable (λ x. eqb (get_or m.now x 0) (get_or n.now x 0)) (length m.now)) }
{
    let mut marks = Bits::new(alloc, m.len())?;
    for x in 0..m.len() {
        marks.set(x, m[x] == n[x]);
    }
    Ok(marks)
}

// The numbers at which both have one value, in order, and the place of each of them.
fn agreeing(
    alloc: Global,
    m: &[u32],
    n: &[u32],
    size: u32,
) -> Result<(Row<u32>, Row<u32>), NoMemory>
    requires first { length m.now ≡ size }
    requires second { length n.now ≡ size }
    ensures { IfOk result (λ kept. AreKept (λ x. get_or m.now x 0 ≡ get_or n.now x 0) size kept.0 kept.1) }
{
    let marks = agreements(alloc, m, n)?;
    kept(alloc, &marks, size)
}

// The same at each object.
fn agreeing_rows(
    alloc: Global,
    cat: &Cat,
    x: &Functor,
    y: &Functor,
    m: &NatMap,
    n: &NatMap,
) -> Result<(Row<Row<u32>>, Row<Row<u32>>), NoMemory>
    requires functor { IsFunctor cat.now x.now }
    requires first { IsNatural cat.now x.now y.now m.now }
    requires second { IsNatural cat.now x.now y.now n.now }
    ensures rows { IfOk result (λ rows. AreKeptRows (λ c x. apply m.now c x ≡ apply n.now c x) cat.now.objects x.now.sizes rows.0 rows.1) }
    ensures lawful { IsCategory cat.now }
{
    let _ = y;
    let mut elements = Row::new(alloc);
    let mut ranks = Row::new(alloc);
    for c in 0..cat.objects() {
        let (element, rank) = agreeing(alloc, m.row(c), n.row(c), x.size(c))?;
        elements.push(element)?;
        ranks.push(rank)?;
    }
    Ok((elements, ranks))
}

/// The equalizer of m and n from x to y with its inclusion: the elements of x at which m and n agree, in their order (Mac Lane and Moerdijk, Categorical
/// Preliminaries). Over comes exactly where it has more cells than there is room for.
pub fn equalizer(
    alloc: Global,
    cat: &Cat,
    x: &Functor,
    y: &Functor,
    m: &NatMap,
    n: &NatMap,
    room: u64,
) -> Result<Made1, NoMemory>
    requires domain { IsFunctor cat.now x.now }
    requires codomain { IsFunctor cat.now y.now }
    requires first { IsNatural cat.now x.now y.now m.now }
    requires second { IsNatural cat.now x.now y.now n.now }
    requires room { room ≤ max_room }
    ensures equalizer { IfOk result (λ made. IfMade1 made (IsEqualizer cat.now x.now y.now m.now n.now)) }
    ensures room { IfOk result (λ made. IfMade1 made (λ Z _. presheaf_cells cat.now Z ≤ room)) }
    ensures over { IfOk result (λ made. IfOver1 made ((Z : Presheaf) (i : Components) → IsEqualizer cat.now x.now y.now m.now n.now Z i → IsOverRoom cat.now room Z)) }
    ensures exists { IfOk result (λ made. IfOver1 made ((Z : Presheaf) × (i : Components) × IsEqualizer cat.now x.now y.now m.now n.now Z i)) }
    ensures lawful { IfOk result (λ _. IsCategory cat.now) }
{
    let (elements, ranks) = agreeing_rows(alloc, cat, x, y, m, n)?;
    match part(alloc, cat, x, &elements, &ranks, room)? {
        None => Ok(Made1::Over),
        Some(part) => {
            let inclusion = NatMap::from_rows(cat, &part, x, elements);
            Ok(Made1::Made(part, inclusion))
        }
    }
}
