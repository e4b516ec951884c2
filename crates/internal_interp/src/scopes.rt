// The context of a term.
ghost use Rattle.std.specs.Prelude.{◌≡◌, ◌<◌, ◌^◌, ◌∷◌, [], List, length, get_or, reverse, IfOk};
ghost use Rattle.finite_lists.specs.Members.{In};
ghost use Rattle.topos_model.specs.declared.ty.Ty.{Ty, One, Omega};
ghost use Rattle.topos_model.specs.declared.context.MapTy.{MapTy};
ghost use Rattle.topos_model.specs.statements.Needs.{parts, product};
ghost use Rattle.topos_model.specs.formulas.Forcing.{World, forces};
ghost use Rattle.functor_store.specs.Faithful.{Holds};
ghost use Rattle.truth_tables.specs.Standing.{IsTruthTable};
ghost use Rattle.truth_tables.specs.Tables.{row};
ghost use Rattle.internal_interp.specs.Known.{Knows, IsScope, IsKnown, IsValued};

use crate::binding::bind;
use crate::conversions::{truths_of, value_of};
use crate::terms::interpret_term;
use crate::widths::{place_of, widths};
use crate::{Context, Interpreter, Valued};
use std::alloc::Global;
use topos_model::{Copied, NoMemory, Row, Term, Ty};
use truth_tables::Truths;

// One tuple at each of so many objects.
fn single_tuples(alloc: Global, objects: u32) -> Result<Row<u32>, NoMemory>
    ensures { IfOk result (λ sizes. sizes ≡ row objects (λ c. 1)) }
{
    let mut sizes = Row::new(alloc);
    for _c in 0..objects {
        sizes.push(1)?;
    }
    Ok(sizes)
}

// A row with one item.
fn single<T: Drop>(alloc: Global, item: T) -> Result<Row<T>, NoMemory>
    ensures { IfOk result (λ row. row ≡ item ∷ []) }
{
    let mut row = Row::new(alloc);
    row.push(item)?;
    Ok(row)
}

// The context without variables.
fn no_variables(alloc: Global, interpreter: &Interpreter<'_>) -> Result<Context, NoMemory>
    requires known { (w : World) × (maps : List MapTy) × Knows w maps interpreter.now }
    requires held { Holds interpreter.now.store.now One }
    ensures { IfOk result (λ context. (w : World) (maps : List MapTy) → Knows w maps interpreter.now → IsScope w maps interpreter.now [] context) }
{
    let place = place_of(interpreter.store, &Ty::One);
    let tuples = widths(alloc, interpreter, &Ty::One)?;
    Ok(Context {
        types: Row::new(alloc),
        product: Ty::One,
        place,
        sizes: single(alloc, tuples)?,
        widths: Row::new(alloc),
    })
}

// The context of one variable.
fn one_variable(alloc: Global, interpreter: &Interpreter<'_>, ty: &Ty) -> Result<Context, NoMemory>
    requires known { (w : World) × (maps : List MapTy) × Knows w maps interpreter.now }
    requires held { Holds interpreter.now.store.now ty.now }
    ensures { IfOk result (λ context. (w : World) (maps : List MapTy) → Knows w maps interpreter.now → IsScope w maps interpreter.now (ty.now ∷ []) context) }
{
    let place = place_of(interpreter.store, ty);
    let mut sizes = single(alloc, widths(alloc, interpreter, ty)?)?;
    sizes.push(single_tuples(alloc, interpreter.site.cat().objects())?)?;
    Ok(Context {
        types: single(alloc, ty.copy(alloc)?)?,
        product: ty.copy(alloc)?,
        place,
        sizes,
        widths: single(alloc, widths(alloc, interpreter, ty)?)?,
    })
}

/// The context of these variables, the outermost first, whose product is sealed with its parts.
pub fn scope(
    alloc: Global,
    interpreter: &Interpreter<'_>,
    types: &[Ty],
) -> Result<Context, NoMemory>
    requires known { (w : World) × (maps : List MapTy) × Knows w maps interpreter.now }
    requires held { (P : Ty) → In (parts (product (reverse types.now))) P → Holds interpreter.now.store.now P }
    ensures scope { IfOk result (λ context. (w : World) (maps : List MapTy) → Knows w maps interpreter.now → IsScope w maps interpreter.now (reverse types.now) context) }
{
    if types.len() == 0 {
        return no_variables(alloc, interpreter);
    }
    let mut context = one_variable(alloc, interpreter, &types[0])?;
    for k in 1..types.len() {
        context = bind(alloc, interpreter, &context, &types[k])?;
    }
    Ok(context)
}

/// Where a formula is forced, at each object and tuple of its context (Mac Lane and Moerdijk, VI.6).
pub fn formula_truths(
    alloc: Global,
    interpreter: &Interpreter<'_>,
    context: &Context,
    formula: &Term,
) -> Result<Truths, NoMemory>
    requires objects { length (get_or context.now.sizes 0 []) < 2 ^ 32 }
    requires known { (w : World) × (maps : List MapTy) × (Γ : List Ty) × IsKnown w maps interpreter.now Γ Omega context.now formula.now }
    ensures truths { IfOk result (λ truths. (w : World) (maps : List MapTy) (Γ : List Ty) → IsKnown w maps interpreter.now Γ Omega context.now formula.now → IsTruthTable w Γ (forces w formula.now) truths) }
{
    let interpreted = interpret_term(alloc, interpreter, context, formula)?;
    truths_of(alloc, interpreter, context, interpreted)
}

/// The type and the values of a term, at each object and tuple of its context; those of a formula are the closed sieves of the arrows along which it is forced (Mac Lane and
/// Moerdijk, VI.5).
pub fn term_values(
    alloc: Global,
    interpreter: &Interpreter<'_>,
    context: &Context,
    term: &Term,
) -> Result<Valued, NoMemory>
    requires objects { length (get_or context.now.sizes 0 []) < 2 ^ 32 }
    requires known { (w : World) × (maps : List MapTy) × (Γ : List Ty) × (U : Ty) × IsKnown w maps interpreter.now Γ U context.now term.now }
    ensures values { IfOk result (λ v. (w : World) (maps : List MapTy) (Γ : List Ty) (U : Ty) → IsKnown w maps interpreter.now Γ U context.now term.now → IsValued w Γ U term.now v) }
{
    let interpreted = interpret_term(alloc, interpreter, context, term)?;
    value_of(alloc, interpreter, context, interpreted)
}
