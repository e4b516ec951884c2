// Pushouts: the coproduct, with the two values of each element in one class.
ghost use Rattle.std.specs.Prelude.{◌≡◌, ◌≤◌, IfOk};
ghost use Rattle.topos_model.specs.types.Types.{Presheaf};
ghost use Rattle.topos_model.specs.Laws.{IsCategory, IsFunctor};
ghost use Rattle.topos_model.specs.presheaves.Maps.{Components, IsNatural};
ghost use Rattle.topos_model.specs.statements.Cells.{presheaf_cells};
ghost use Rattle.topos_model.specs.presheaves.Colimits.{IsPushout};
ghost use Rattle.natural_maps.specs.Made.{IfMade2, IfOver2};
ghost use Rattle.natural_maps.specs.Room.{max_room, IsOverRoom};
ghost use Rattle.finite_colimits.specs.Sums.{sum_sizes, AreFew};

use crate::coequalize::coequalizer;
use crate::sum::summed;
use fin_category::Cat;
use natural_maps::{Made1, Made2, NatMap};
use presheaf_core::Functor;
use std::alloc::Global;
use topos_model::{NoMemory, Row};

// How many elements both have at each object. Where there are 2^32 or more at one object they have no numbers, and their classes no memory.
fn sizes_of_both(alloc: Global, cat: &Cat, x: &Functor, y: &Functor) -> Result<Row<u32>, NoMemory>
    requires first { IsFunctor cat.now x.now }
    requires second { IsFunctor cat.now y.now }
    ensures sizes { IfOk result (λ sizes. sizes ≡ sum_sizes cat.now x.now y.now) }
    ensures few { IfOk result (λ _. AreFew cat.now x.now y.now) }
    ensures lawful { IsCategory cat.now }
{
    let mut sizes = Row::new(alloc);
    for c in 0..cat.objects() {
        let size = x.size(c) as u64 + y.size(c) as u64;
        if size >= 1 << 32 {
            return Err(NoMemory);
        }
        sizes.push(size as u32)?;
    }
    Ok(sizes)
}

/// The pushout of m from a to x and n from a to y with its two maps: the classes of the elements of x and y together under the pairs (m(s), n(s)), in the
/// order of their least members, the elements of x standing first (Mac Lane and Moerdijk, Categorical Preliminaries). Over comes exactly where it has more
/// cells than there is room for.
pub fn pushout(
    alloc: Global,
    cat: &Cat,
    a: &Functor,
    x: &Functor,
    y: &Functor,
    m: &NatMap,
    n: &NatMap,
    room: u64,
) -> Result<Made2, NoMemory>
    requires domain { IsFunctor cat.now a.now }
    requires left { IsFunctor cat.now x.now }
    requires right { IsFunctor cat.now y.now }
    requires first { IsNatural cat.now a.now x.now m.now }
    requires second { IsNatural cat.now a.now y.now n.now }
    requires room { room ≤ max_room }
    ensures pushout { IfOk result (λ made. IfMade2 made (IsPushout cat.now a.now x.now y.now m.now n.now)) }
    ensures room { IfOk result (λ made. IfMade2 made (λ Z _ _. presheaf_cells cat.now Z ≤ room)) }
    ensures over { IfOk result (λ made. IfOver2 made ((Z : Presheaf) (i j : Components) → IsPushout cat.now a.now x.now y.now m.now n.now Z i j → IsOverRoom cat.now room Z)) }
    ensures exists { IfOk result (λ made. IfOver2 made ((Z : Presheaf) × (i : Components) × (j : Components) × IsPushout cat.now a.now x.now y.now m.now n.now Z i j)) }
{
    let sizes = sizes_of_both(alloc, cat, x, y)?;
    let (sum, i, j) = summed(alloc, cat, x, y, sizes)?;
    let first = i.after(alloc, m)?;
    let second = j.after(alloc, n)?;
    match coequalizer(alloc, cat, a, &sum, &first, &second, room)? {
        Made1::Over => Ok(Made2::Over),
        Made1::Made(classes, quotient) => {
            let left = quotient.after(alloc, &i)?;
            let right = quotient.after(alloc, &j)?;
            Ok(Made2::Made(classes, left, right))
        }
    }
}
