// The parts of pairs, by numbers.
ghost use Rattle.std.specs.Prelude.{List};
ghost use Rattle.topos_model.specs.declared.ty.Ty.{Two};
ghost use Rattle.topos_model.specs.declared.value.Val.{Val, Two as Pair};
ghost use Rattle.topos_model.specs.types.Types.{Presheaf};
ghost use Rattle.element_values.specs.Known.{IsElement, HasValue};

use crate::Elements;
use crate::sealed::count;
use topos_model::{Boxed, Ty};

/// The numbers of the parts of the pair number k at c.
pub(crate) fn part_numbers(
    elements: &Elements<'_>,
    left: &Boxed<Ty>,
    right: &Boxed<Ty>,
    c: u32,
    k: u32,
) -> (u32, u32)
    requires element { (functors : List Presheaf) × IsElement elements.now functors (Two left.now right.now) c k }
    ensures first { (functors : List Presheaf) × IsElement elements.now functors left.now c result.0 }
    ensures second { (functors : List Presheaf) × IsElement elements.now functors right.now c result.1 }
    ensures value { (u v : Val) → HasValue elements.now left.now c result.0 u → HasValue elements.now right.now c result.1 v → HasValue elements.now (Two left.now right.now) c k (Pair u v) }
{
    // The type of the first parts is a condition alone.
    let _ = left;
    let count = count(elements, right.get(), c);
    (k / count, k % count)
}
