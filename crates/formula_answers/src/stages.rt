// The tuples of a context at each object.
ghost use Rattle.std.specs.Prelude.{◌≡◌, ℕ, ◌<◌, ◌^◌, List, [], map, length, get_or, reverse, IfOk};
ghost use Rattle.topos_model.specs.declared.ty.Ty.{Omega};
ghost use Rattle.topos_model.specs.declared.value.Val.{Val};
ghost use Rattle.topos_model.specs.types.Types.{Presheaf};
ghost use Rattle.topos_model.specs.types.Values.{arrows_of};
ghost use Rattle.topos_model.specs.formulas.Forcing.{World, Assigned, Property, tuples};
ghost use Rattle.topos_model.specs.statements.Cells.{objects_of};
ghost use Rattle.topos_model.specs.statements.Answers.{tuple_of};
ghost use Rattle.functor_store.specs.Faithful.{Stands};
ghost use Rattle.element_values.specs.Known.{IsElement};
ghost use Rattle.formula_answers.specs.Stages.{kept, with_arrows, AreTruths, AreSieves};

use element_values::{Elements, element_value, tuple_value};
use std::alloc::Global;
use topos_model::{NoMemory, Row, Tuple, Ty, Val};
use truth_tables::{Numbers, Truths, bit, number};

// The tuples at an object that have this truth value.
fn tuples_at(
    alloc: Global,
    elements: &Elements<'_>,
    types: &[Ty],
    sizes: &[u32],
    truths: &Truths,
    c: u32,
    wanted: bool,
) -> Result<Row<Tuple>, NoMemory>
    requires object { c < length sizes.now }
    requires known { (w : World) × (φ : Property) × AreTruths elements.now w (reverse types.now) sizes.now φ truths.now }
    ensures { IfOk result (λ found. (w : World) (φ : Property) → AreTruths elements.now w (reverse types.now) sizes.now φ truths.now → found ≡ map tuple_of (kept wanted (φ c) (tuples w (reverse types.now) c))) }
{
    let mut found = Row::new(alloc);
    for k in 0..sizes[c as usize] {
        if bit(truths, c, k) == wanted {
            found.push(tuple_value(alloc, elements, types, c, k)?)?;
        }
    }
    Ok(found)
}

/// For each object the tuples that have this truth value.
pub(crate) fn tuples_with(
    alloc: Global,
    elements: &Elements<'_>,
    types: &[Ty],
    sizes: &[u32],
    truths: &Truths,
    wanted: bool,
) -> Result<Row<Row<Tuple>>, NoMemory>
    requires objects { length sizes.now < 2 ^ 32 }
    requires known { (w : World) × (φ : Property) × AreTruths elements.now w (reverse types.now) sizes.now φ truths.now }
    ensures { IfOk result (λ stages. (w : World) (φ : Property) → AreTruths elements.now w (reverse types.now) sizes.now φ truths.now → stages ≡ map (λ c. map tuple_of (kept wanted (φ c) (tuples w (reverse types.now) c))) (objects_of w.site.category)) }
{
    let mut stages = Row::new(alloc);
    for c in 0..sizes.len() as u32 {
        stages.push(tuples_at(alloc, elements, types, sizes, truths, c, wanted)?)?;
    }
    Ok(stages)
}

// The arrows of the truth value number k at c.
fn arrows_at(alloc: Global, elements: &Elements<'_>, c: u32, k: u32) -> Result<Row<u32>, NoMemory>
    requires element { (functors : List Presheaf) × IsElement elements.now functors Omega c k }
    ensures { IfOk result (λ arrows. (functors : List Presheaf) (v : Val) → IsElement elements.now functors Omega c k → Stands elements.now.site.now functors Omega c k v → arrows ≡ arrows_of v) }
{
    match element_value(alloc, elements, &Ty::Omega, c, k)? {
        Val::Sv(arrows) => Ok(arrows),
        _ => Ok(Row::new(alloc)),
    }
}

// The tuples at an object, each with the arrows of its truth value.
fn sieves_at(
    alloc: Global,
    elements: &Elements<'_>,
    types: &[Ty],
    sizes: &[u32],
    numbers: &Numbers,
    c: u32,
) -> Result<Row<(Tuple, Row<u32>)>, NoMemory>
    requires object { c < length sizes.now }
    requires known { (w : World) × (v : ℕ → Assigned → Val) × AreSieves elements.now w (reverse types.now) sizes.now v numbers.now }
    ensures { IfOk result (λ found. (w : World) (v : ℕ → Assigned → Val) → AreSieves elements.now w (reverse types.now) sizes.now v numbers.now → found ≡ with_arrows (v c) (tuples w (reverse types.now) c)) }
{
    let mut found = Row::new(alloc);
    for k in 0..sizes[c as usize] {
        let tuple = tuple_value(alloc, elements, types, c, k)?;
        let arrows = arrows_at(alloc, elements, c, number(numbers, c, k))?;
        found.push((tuple, arrows))?;
    }
    Ok(found)
}

/// For each object the tuples, each with the arrows of its truth value.
pub(crate) fn tuples_with_sieves(
    alloc: Global,
    elements: &Elements<'_>,
    types: &[Ty],
    sizes: &[u32],
    numbers: &Numbers,
) -> Result<Row<Row<(Tuple, Row<u32>)>>, NoMemory>
    requires objects { length sizes.now < 2 ^ 32 }
    requires known { (w : World) × (v : ℕ → Assigned → Val) × AreSieves elements.now w (reverse types.now) sizes.now v numbers.now }
    ensures { IfOk result (λ stages. (w : World) (v : ℕ → Assigned → Val) → AreSieves elements.now w (reverse types.now) sizes.now v numbers.now → stages ≡ map (λ c. with_arrows (v c) (tuples w (reverse types.now) c)) (objects_of w.site.category)) }
{
    let mut stages = Row::new(alloc);
    for c in 0..sizes.len() as u32 {
        stages.push(sieves_at(alloc, elements, types, sizes, numbers, c)?)?;
    }
    Ok(stages)
}
