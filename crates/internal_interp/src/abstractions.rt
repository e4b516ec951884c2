// Functions and sets that terms with one variable more define.
ghost use Rattle.std.specs.Prelude.{◌≡◌, ◌<◌, ◌^◌, [], List, length, get_or, IfOk};
ghost use Rattle.topos_model.specs.declared.ty.Ty.{Ty, Pow, Fun};
ghost use Rattle.topos_model.specs.declared.term.Term.{Term, Lam, Compr};
ghost use Rattle.topos_model.specs.declared.context.MapTy.{MapTy};
ghost use Rattle.topos_model.specs.formulas.Forcing.{World};
ghost use Rattle.internal_interp.specs.Known.{IsValued};
ghost use Rattle.internal_interp.specs.Abstractions.{IsFunctionFrom, IsSetFrom};

use crate::widths::{place_of, widths};
use crate::{Context, Interpreter, Valued};
use std::alloc::Global;
use term_tables::{comprehension_table, function_table};
use topos_model::{Boxed, Copied, NoMemory, Ty};
use truth_tables::Truths;

/// The function that a term with one variable more defines.
pub(crate) fn function(
    alloc: Global,
    interpreter: &Interpreter<'_>,
    context: &Context,
    ty: &Ty,
    body: Valued,
) -> Result<Valued, NoMemory>
    requires objects { length (get_or context.now.sizes 0 []) < 2 ^ 32 }
    requires known { (w : World) × (maps : List MapTy) × (Γ : List Ty) × (T : Ty) × (t : Term) × IsFunctionFrom w maps interpreter.now Γ ty.now T context.now t body }
    ensures { IfOk result (λ value. (w : World) (maps : List MapTy) (Γ : List Ty) (T : Ty) (t : Term) → IsFunctionFrom w maps interpreter.now Γ ty.now T context.now t body → IsValued w Γ (Fun ty.now T) (Lam ty.now t) value) }
{
    let domain = ty.copy(alloc)?;
    let whole = Ty::Fun(Boxed::new(alloc, domain)?, Boxed::new(alloc, body.ty)?);
    let id = place_of(interpreter.store, &whole);
    let widths = widths(alloc, interpreter, ty)?;
    let numbers = function_table(
        alloc,
        interpreter.stages,
        interpreter.store,
        context.place,
        id,
        context.tuples(),
        widths.as_slice(),
        &body.numbers,
    )?;
    Ok(Valued { ty: whole, numbers })
}

/// The set of the values at which a formula with one variable more is forced.
pub(crate) fn set(
    alloc: Global,
    interpreter: &Interpreter<'_>,
    context: &Context,
    inner: &Context,
    ty: &Ty,
    body: Truths,
) -> Result<Valued, NoMemory>
    requires objects { length (get_or context.now.sizes 0 []) < 2 ^ 32 }
    requires known { (w : World) × (maps : List MapTy) × (Γ : List Ty) × (t : Term) × IsSetFrom w maps interpreter.now Γ ty.now context.now inner.now t body }
    ensures { IfOk result (λ value. (w : World) (maps : List MapTy) (Γ : List Ty) (t : Term) → IsSetFrom w maps interpreter.now Γ ty.now context.now inner.now t body → IsValued w Γ (Pow ty.now) (Compr ty.now t) value) }
{
    let of = ty.copy(alloc)?;
    let whole = Ty::Pow(Boxed::new(alloc, of)?);
    let id = place_of(interpreter.store, &whole);
    let widths = widths(alloc, interpreter, ty)?;
    let numbers = comprehension_table(
        alloc,
        interpreter.stages,
        interpreter.store,
        context.place,
        id,
        context.tuples(),
        inner.tuples(),
        widths.as_slice(),
        &body,
    )?;
    Ok(Valued { ty: whole, numbers })
}
