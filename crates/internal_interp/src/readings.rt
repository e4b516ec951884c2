// Functions at values, equality and membership.
ghost use Rattle.std.specs.Prelude.{◌≡◌, ◌<◌, ◌^◌, [], List, length, get_or, IfOk};
ghost use Rattle.topos_model.specs.declared.ty.Ty.{Ty};
ghost use Rattle.topos_model.specs.declared.term.Term.{Term, Eval, Eq, Member};
ghost use Rattle.topos_model.specs.declared.context.MapTy.{MapTy};
ghost use Rattle.topos_model.specs.formulas.Forcing.{World, forces};
ghost use Rattle.truth_tables.specs.Standing.{IsTruthTable};
ghost use Rattle.internal_interp.specs.Known.{IsValued};
ghost use Rattle.internal_interp.specs.Readings.{AreApplied, AreEquated, AreMember};

use crate::widths::place_of;
use crate::{Context, Interpreter, Valued};
use std::alloc::Global;
use term_tables::{equal_table, evaluation_table, membership_table};
use topos_model::{Copied, NoMemory, Ty};
use truth_tables::Truths;

/// A function at an argument.
pub(crate) fn applied(
    alloc: Global,
    interpreter: &Interpreter<'_>,
    context: &Context,
    function: Valued,
    argument: Valued,
) -> Result<Valued, NoMemory>
    requires objects { length (get_or context.now.sizes 0 []) < 2 ^ 32 }
    requires known { (w : World) × (maps : List MapTy) × (Γ : List Ty) × (S T : Ty) × (t u : Term) × AreApplied w maps interpreter.now Γ S T context.now t u function argument }
    ensures { IfOk result (λ value. (w : World) (maps : List MapTy) (Γ : List Ty) (S T : Ty) (t u : Term) → AreApplied w maps interpreter.now Γ S T context.now t u function argument → IsValued w Γ T (Eval t u) value) }
{
    match &function.ty {
        Ty::Fun(_, to) => {
            let id = place_of(interpreter.store, &function.ty);
            let numbers = evaluation_table(
                alloc,
                interpreter.store,
                id,
                context.tuples(),
                &function.numbers,
                &argument.numbers,
            )?;
            Ok(Valued {
                ty: to.get().copy(alloc)?,
                numbers,
            })
        }
        _ => unreachable!(),
    }
}

/// Where two values are equal.
pub(crate) fn equated(
    alloc: Global,
    interpreter: &Interpreter<'_>,
    context: &Context,
    left: Valued,
    right: Valued,
) -> Result<Truths, NoMemory>
    requires objects { length (get_or context.now.sizes 0 []) < 2 ^ 32 }
    requires known { (w : World) × (maps : List MapTy) × (Γ : List Ty) × (T : Ty) × (t u : Term) × AreEquated w maps interpreter.now Γ T context.now t u left right }
    ensures { IfOk result (λ truths. (w : World) (maps : List MapTy) (Γ : List Ty) (T : Ty) (t u : Term) → AreEquated w maps interpreter.now Γ T context.now t u left right → IsTruthTable w Γ (forces w (Eq t u)) truths) }
{
    // What the terms are interpreted over is a condition alone.
    let _ = interpreter;
    equal_table(alloc, context.tuples(), &left.numbers, &right.numbers)
}

/// Where an element is a member of a set.
pub(crate) fn member(
    alloc: Global,
    interpreter: &Interpreter<'_>,
    context: &Context,
    element: Valued,
    set: Valued,
) -> Result<Truths, NoMemory>
    requires objects { length (get_or context.now.sizes 0 []) < 2 ^ 32 }
    requires known { (w : World) × (maps : List MapTy) × (Γ : List Ty) × (T : Ty) × (t u : Term) × AreMember w maps interpreter.now Γ T context.now t u element set }
    ensures { IfOk result (λ truths. (w : World) (maps : List MapTy) (Γ : List Ty) (T : Ty) (t u : Term) → AreMember w maps interpreter.now Γ T context.now t u element set → IsTruthTable w Γ (forces w (Member t u)) truths) }
{
    let id = place_of(interpreter.store, &set.ty);
    membership_table(
        alloc,
        interpreter.store,
        id,
        context.tuples(),
        &element.numbers,
        &set.numbers,
    )
}
