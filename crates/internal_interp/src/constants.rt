// Terms without parts.
ghost use Rattle.std.specs.Prelude.{◌≡◌, ◌<◌, ◌^◌, ℕ, [], List, length, get_or, IfOk};
ghost use Rattle.topos_model.specs.declared.ty.Ty.{Ty};
ghost use Rattle.topos_model.specs.declared.term.Term.{Term, Var, Star, Truth, Falsity};
ghost use Rattle.topos_model.specs.declared.context.MapTy.{MapTy};
ghost use Rattle.topos_model.specs.formulas.Forcing.{World};
ghost use Rattle.internal_interp.specs.Known.{IsKnown};
ghost use Rattle.internal_interp.specs.Interpretations.{HasMeaning};

use crate::variables::variable;
use crate::{Context, Interpreted, Interpreter, Valued};
use formula_tables::{falsity, truth};
use std::alloc::Global;
use term_tables::star_table;
use topos_model::{NoMemory, Ty};

/// A variable.
pub(crate) fn variable_term(
    alloc: Global,
    interpreter: &Interpreter<'_>,
    context: &Context,
    place: u32,
) -> Result<Interpreted, NoMemory>
    requires objects { length (get_or context.now.sizes 0 []) < 2 ^ 32 }
    requires known { (w : World) × (maps : List MapTy) × (Γ : List Ty) × (U : Ty) × IsKnown w maps interpreter.now Γ U context.now (Var place) }
    ensures { IfOk result (λ whole. HasMeaning interpreter.now context.now (Var place) whole) }
{
    Ok(Interpreted::Value(variable(alloc, interpreter, context, place)?))
}

/// The empty tuple.
pub(crate) fn star_term(
    alloc: Global,
    interpreter: &Interpreter<'_>,
    context: &Context,
) -> Result<Interpreted, NoMemory>
    requires objects { length (get_or context.now.sizes 0 []) < 2 ^ 32 }
    requires known { (w : World) × (maps : List MapTy) × (Γ : List Ty) × (U : Ty) × IsKnown w maps interpreter.now Γ U context.now Star }
    ensures { IfOk result (λ whole. HasMeaning interpreter.now context.now Star whole) }
{
    // What the terms are interpreted over is a condition alone.
    let _ = interpreter;
    let numbers = star_table(alloc, context.tuples())?;
    Ok(Interpreted::Value(Valued {
        ty: Ty::One,
        numbers,
    }))
}

/// Truth.
pub(crate) fn truth_term(
    alloc: Global,
    interpreter: &Interpreter<'_>,
    context: &Context,
) -> Result<Interpreted, NoMemory>
    requires objects { length (get_or context.now.sizes 0 []) < 2 ^ 32 }
    requires known { (w : World) × (maps : List MapTy) × (Γ : List Ty) × (U : Ty) × IsKnown w maps interpreter.now Γ U context.now Truth }
    ensures { IfOk result (λ whole. HasMeaning interpreter.now context.now Truth whole) }
{
    // What the terms are interpreted over is a condition alone.
    let _ = interpreter;
    Ok(Interpreted::Formula(truth(alloc, context.tuples())?))
}

/// Falsity.
pub(crate) fn falsity_term(
    alloc: Global,
    interpreter: &Interpreter<'_>,
    context: &Context,
) -> Result<Interpreted, NoMemory>
    requires objects { length (get_or context.now.sizes 0 []) < 2 ^ 32 }
    requires known { (w : World) × (maps : List MapTy) × (Γ : List Ty) × (U : Ty) × IsKnown w maps interpreter.now Γ U context.now Falsity }
    ensures { IfOk result (λ whole. HasMeaning interpreter.now context.now Falsity whole) }
{
    let truths = falsity(
        alloc,
        interpreter.stages,
        interpreter.store,
        context.place,
        context.tuples(),
    )?;
    Ok(Interpreted::Formula(truths))
}
