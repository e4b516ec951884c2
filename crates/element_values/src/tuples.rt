// Tuples of contexts as values.
ghost use Rattle.std.specs.Prelude.{◌≡◌, ◌++◌, [], get_or, reverse, IfOk, OnOk};
ghost use Rattle.topos_model.specs.formulas.Forcing.{World, tuples};
ghost use Rattle.topos_model.specs.statements.Answers.{tuple_of};
ghost use Rattle.functor_store.specs.Faithful.{IsFaithful};
ghost use Rattle.element_values.specs.Known.{IsWorldOf, IsTuple, values_at};

use crate::sealed::count;
use crate::{Elements, element_value};
use std::alloc::Global;
use topos_model::{NoMemory, Row, Tuple, Ty, Val};

// Puts the values of the tuple number k at c last.
fn push_values(
    alloc: Global,
    elements: &Elements<'_>,
    types: &[Ty],
    c: u32,
    k: u32,
    vals: &mut Row<Val>,
) -> Result<(), NoMemory>
    requires tuple { (w : World) × IsTuple elements.now w (reverse types.now) c k }
    ensures { OnOk result ((w : World) → IsWorldOf elements.now w → vals.new ≡ vals.old ++ values_at elements.now w (reverse types.now) c k) }
{
    match types.split_last() {
        None => Ok(()),
        Some((innermost, outer)) => {
            let count = count(elements, innermost, c);
            push_values(alloc, elements, outer, c, k / count, vals)?;
            vals.push(element_value(alloc, elements, innermost, c, k % count)?)
        }
    }
}

/// The tuple number k of a context at c: an element of each type, the outermost first (Mac Lane and Moerdijk, Sheaves in Geometry and Logic, VI.5). The product of the
/// context need not be sealed.
pub fn tuple_value(
    alloc: Global,
    elements: &Elements<'_>,
    types: &[Ty],
    c: u32,
    k: u32,
) -> Result<Tuple, NoMemory>
    requires tuple { (w : World) × IsTuple elements.now w (reverse types.now) c k }
    ensures value { IfOk result (λ tuple. (w : World) → w.site ≡ elements.now.site.now → IsFaithful w.site w.functors elements.now.store.now → tuple_of (get_or (tuples w (reverse types.now) c) k []) ≡ tuple) }
{
    let mut vals = Row::new(alloc);
    push_values(alloc, elements, types, c, k, &mut vals)?;
    Ok(Tuple { vals })
}
