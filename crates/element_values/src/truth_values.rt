// Truth values.
ghost use Rattle.std.specs.Prelude.{◌≡◌, List, IfOk};
ghost use Rattle.topos_model.specs.declared.ty.Ty.{Omega};
ghost use Rattle.topos_model.specs.types.Types.{Presheaf};
ghost use Rattle.fin_category.specs.ArrowSets.{arrows_in};
ghost use Rattle.element_values.specs.Known.{IsElement, HasValue};

use crate::Elements;
use fin_category::ArrowMask;
use std::alloc::Global;
use topos_model::{NoMemory, Row, Val};

// The arrows of a set.
fn arrows_of(alloc: Global, set: ArrowMask) -> Result<Row<u32>, NoMemory>
    ensures { IfOk result (λ arrows. arrows ≡ arrows_in set) }
{
    let mut arrows = Row::new(alloc);
    for f in set.iter() {
        arrows.push(f)?;
    }
    Ok(arrows)
}

/// The truth value number k at c: the arrows of its sieve, in order.
pub(crate) fn truth_value(
    alloc: Global,
    elements: &Elements<'_>,
    c: u32,
    k: u32,
) -> Result<Val, NoMemory>
    requires element { (functors : List Presheaf) × IsElement elements.now functors Omega c k }
    ensures value { IfOk result (λ v. HasValue elements.now Omega c k v) }
{
    match elements.omega {
        Some(omega) => Ok(Val::Sv(arrows_of(alloc, omega.sieve(c, k))?)),
        None => unreachable!(),
    }
}
