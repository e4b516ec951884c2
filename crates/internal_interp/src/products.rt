// Pairs and their parts.
ghost use Rattle.std.specs.Prelude.{◌≡◌, ◌<◌, ◌^◌, [], List, length, get_or, IfOk};
ghost use Rattle.topos_model.specs.declared.ty.Ty.{Ty, Two};
ghost use Rattle.topos_model.specs.declared.term.Term.{Term, Pair, Fst, Snd};
ghost use Rattle.topos_model.specs.declared.context.MapTy.{MapTy};
ghost use Rattle.topos_model.specs.formulas.Forcing.{World};
ghost use Rattle.internal_interp.specs.Known.{IsKnown, IsValued, ArePair};

use crate::widths::widths;
use crate::{Context, Interpreter, Valued};
use std::alloc::Global;
use term_tables::{first_table, pair_table, second_table};
use topos_model::{Boxed, Copied, NoMemory, Ty};

/// The pair of two terms.
pub(crate) fn pair(
    alloc: Global,
    interpreter: &Interpreter<'_>,
    context: &Context,
    left: Valued,
    right: Valued,
) -> Result<Valued, NoMemory>
    requires objects { length (get_or context.now.sizes 0 []) < 2 ^ 32 }
    requires known { (w : World) × (maps : List MapTy) × (Γ : List Ty) × (S T : Ty) × (t u : Term) × ArePair w maps interpreter.now Γ S T context.now t u left right }
    ensures { IfOk result (λ value. (w : World) (maps : List MapTy) (Γ : List Ty) (S T : Ty) (t u : Term) → ArePair w maps interpreter.now Γ S T context.now t u left right → IsValued w Γ (Two S T) (Pair t u) value) }
{
    let widths = widths(alloc, interpreter, &right.ty)?;
    let numbers = pair_table(
        alloc,
        interpreter.store,
        context.tuples(),
        widths.as_slice(),
        &left.numbers,
        &right.numbers,
    )?;
    let ty = Ty::Two(Boxed::new(alloc, left.ty)?, Boxed::new(alloc, right.ty)?);
    Ok(Valued { ty, numbers })
}

/// The first part of a pair.
pub(crate) fn first(
    alloc: Global,
    interpreter: &Interpreter<'_>,
    context: &Context,
    pair: Valued,
) -> Result<Valued, NoMemory>
    requires objects { length (get_or context.now.sizes 0 []) < 2 ^ 32 }
    requires known { (w : World) × (maps : List MapTy) × (Γ : List Ty) × (S T : Ty) × (t : Term) × IsKnown w maps interpreter.now Γ (Two S T) context.now t × IsValued w Γ (Two S T) t pair }
    ensures { IfOk result (λ value. (w : World) (maps : List MapTy) (Γ : List Ty) (S T : Ty) (t : Term) → IsKnown w maps interpreter.now Γ (Two S T) context.now t → IsValued w Γ (Two S T) t pair → IsValued w Γ S (Fst t) value) }
{
    match &pair.ty {
        Ty::Two(left, right) => {
            let widths = widths(alloc, interpreter, right.get())?;
            let numbers = first_table(alloc, context.tuples(), widths.as_slice(), &pair.numbers)?;
            Ok(Valued {
                ty: left.get().copy(alloc)?,
                numbers,
            })
        }
        _ => unreachable!(),
    }
}

/// The second part of a pair.
pub(crate) fn second(
    alloc: Global,
    interpreter: &Interpreter<'_>,
    context: &Context,
    pair: Valued,
) -> Result<Valued, NoMemory>
    requires objects { length (get_or context.now.sizes 0 []) < 2 ^ 32 }
    requires known { (w : World) × (maps : List MapTy) × (Γ : List Ty) × (S T : Ty) × (t : Term) × IsKnown w maps interpreter.now Γ (Two S T) context.now t × IsValued w Γ (Two S T) t pair }
    ensures { IfOk result (λ value. (w : World) (maps : List MapTy) (Γ : List Ty) (S T : Ty) (t : Term) → IsKnown w maps interpreter.now Γ (Two S T) context.now t → IsValued w Γ (Two S T) t pair → IsValued w Γ T (Snd t) value) }
{
    match &pair.ty {
        Ty::Two(_, right) => {
            let widths = widths(alloc, interpreter, right.get())?;
            let numbers = second_table(alloc, context.tuples(), widths.as_slice(), &pair.numbers)?;
            Ok(Valued {
                ty: right.get().copy(alloc)?,
                numbers,
            })
        }
        _ => unreachable!(),
    }
}
