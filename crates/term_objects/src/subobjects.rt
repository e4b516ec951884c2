// Subobjects by comprehension.
ghost use Rattle.std.specs.Prelude.{◌≡◌, ◌<◌, ◌≤◌, ℕ, Bool, List, [], ◌∷◌, length, get_or, map, IfOk};
ghost use Rattle.topos_model.specs.declared.ty.Ty.{Ty};
ghost use Rattle.topos_model.specs.declared.value.Val.{Val};
ghost use Rattle.topos_model.specs.topologies.Cover.{Site};
ghost use Rattle.topos_model.specs.types.Types.{Presheaf};
ghost use Rattle.functor_store.specs.Store.{functor_at, size_at, restriction_along};
ghost use Rattle.truth_tables.specs.Tables.{row};
ghost use Rattle.formula_answers.specs.Formulas.{IsFormulaOver};
ghost use Rattle.term_objects.specs.KeptElements.{true_numbers, true_counts, kept_along, AreTruths, AreKept};
ghost use Rattle.term_objects.specs.TermObjects.{TrueElements, IsPart, IsSubobject};

use crate::Subobject;
use crate::term_maps::one_type;
use fin_category::Cat;
use formula_answers::interpreter;
use functor_store::{FunctorId, FunctorStore};
use internal_interp::{formula_truths, scope};
use presheaf_core::Functor;
use sealed_world::SealedWorld;
use std::alloc::Global;
use topos_model::{MapTable, NoMemory, Row, Term, Ty};
use truth_tables::{Truths, row_at};

// For each object how many elements are kept, the numbers of these, and for each element how many before it are kept.
#[derive(Drop)]
struct Kept {
    sizes: Row<u32>,
    numbers: Row<Row<u32>>,
    places: Row<Row<u32>>,
}

// The numbers of the elements that are true, and for each element how many before it are.
fn kept_row(alloc: Global, truths: &[bool], size: u32) -> Result<(Row<u32>, Row<u32>), NoMemory>
    requires elements { length truths.now ≡ size }
    ensures numbers { IfOk result (λ kept. kept.0 ≡ true_numbers truths.now) }
    ensures few { IfOk result (λ kept. length kept.0 ≤ size) }
    ensures places { IfOk result (λ kept. kept.1 ≡ true_counts truths.now) }
{
    let mut numbers = Row::new(alloc);
    let mut places = Row::new(alloc);
    for x in 0..size {
        places.push(numbers.len() as u32)?;
        if truths[x as usize] {
            numbers.push(x)?;
        }
    }
    Ok((numbers, places))
}

// The same at each object.
fn kept_rows(
    alloc: Global,
    store: &FunctorStore,
    id: FunctorId,
    objects: u32,
    truths: &Truths,
) -> Result<Kept, NoMemory>
    requires truths { AreTruths store.now id objects truths.now }
    ensures sizes { IfOk result (λ kept. kept.sizes ≡ row objects (λ c. length (true_numbers (get_or truths.now c [])))) }
    ensures numbers { IfOk result (λ kept. kept.numbers ≡ row objects (λ c. true_numbers (get_or truths.now c []))) }
    ensures places { IfOk result (λ kept. kept.places ≡ row objects (λ c. true_counts (get_or truths.now c []))) }
{
    let mut sizes = Row::new(alloc);
    let mut all_numbers = Row::new(alloc);
    let mut all_places = Row::new(alloc);
    for c in 0..objects {
        let (numbers, places) = kept_row(alloc, truths.row(c), store.count(id, c))?;
        sizes.push(numbers.len() as u32)?;
        all_numbers.push(numbers)?;
        all_places.push(places)?;
    }
    Ok(Kept {
        sizes,
        numbers: all_numbers,
        places: all_places,
    })
}

// The places of the restrictions along f of elements that are kept.
fn restricted(
    alloc: Global,
    store: &FunctorStore,
    id: FunctorId,
    f: u32,
    numbers: &[u32],
    places: &[u32],
) -> Result<Row<u32>, NoMemory>
    requires sealed { id < length store.now.sealed }
    requires arrow { f < length store.now.ends }
    requires elements { (t : ℕ) → t < length numbers.now → get_or numbers.now t 0 < size_at (functor_at store.now.sealed id) ((get_or store.now.ends f (0, 0)).1) }
    requires within { (t : ℕ) → t < length numbers.now → restriction_along store.now.ends (functor_at store.now.sealed id) f (get_or numbers.now t 0) < length places.now }
    ensures { IfOk result (λ row. row ≡ map (λ x. get_or places.now (restriction_along store.now.ends (functor_at store.now.sealed id) f x) 0) numbers.now) }
{
    let mut row = Row::new(alloc);
    for x in numbers {
        row.push(places[store.restrict(id, f, *x) as usize])?;
    }
    Ok(row)
}

// The same along each arrow.
fn kept_restrictions(
    alloc: Global,
    cat: &Cat,
    store: &FunctorStore,
    id: FunctorId,
    numbers: &[Row<u32>],
    places: &[Row<u32>],
) -> Result<Row<Row<u32>>, NoMemory>
    requires kept { AreKept cat.now store.now id numbers.now places.now }
    ensures { IfOk result (λ rows. rows ≡ row (length cat.now.ends) (kept_along cat.now store.now id numbers.now places.now)) }
{
    let mut rows = Row::new(alloc);
    for f in 0..cat.arrows() {
        let numbers = row_at(numbers, cat.cod(f));
        let places = row_at(places, cat.dom(f));
        rows.push(restricted(alloc, store, id, f, numbers, places)?)?;
    }
    Ok(rows)
}

// The presheaf of the elements that are true, in order, with their numbers.
fn part(
    alloc: Global,
    cat: &Cat,
    store: &FunctorStore,
    id: FunctorId,
    truths: &Truths,
) -> Result<Subobject, NoMemory>
    requires known { (s : Site) × (functors : List Presheaf) × (T : Ty) × (p : ℕ → Val → Bool) × TrueElements cat.now store.now id truths.now s functors T p }
    ensures { IfOk result (λ made. (s : Site) (functors : List Presheaf) (T : Ty) (p : ℕ → Val → Bool) → TrueElements cat.now store.now id truths.now s functors T p → IsPart s functors T p made) }
{
    let kept = kept_rows(alloc, store, id, cat.objects(), truths)?;
    let along = kept_restrictions(
        alloc,
        cat,
        store,
        id,
        kept.numbers.as_slice(),
        kept.places.as_slice(),
    )?;
    Ok(Subobject {
        functor: Functor::from_rows(cat, kept.sizes, along),
        inclusion: kept.numbers,
    })
}

/// The elements of a type that satisfy a formula, as a presheaf by their numbers, with its inclusion (Mac Lane and Moerdijk, VI.5). An element that satisfies it restricts to one that
/// does.
pub fn subobject(
    alloc: Global,
    world: &SealedWorld,
    maps: &[MapTable],
    ty: &Ty,
    formula: &Term,
) -> Result<Subobject, NoMemory>
    requires formula { IsFormulaOver world.now maps.now (ty.now ∷ []) formula.now }
    ensures subobject { IfOk result (IsSubobject world.now maps.now ty.now formula.now) }
{
    let interpreter = interpreter(world, maps);
    let types = one_type(alloc, ty)?;
    let context = scope(alloc, &interpreter, types.as_slice())?;
    let truths = formula_truths(alloc, &interpreter, &context, formula)?;
    part(
        alloc,
        interpreter.site.cat(),
        interpreter.store,
        context.place,
        &truths,
    )
}
