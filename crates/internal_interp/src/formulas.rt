// Formulas by the tables of their parts.
ghost use Rattle.std.specs.Prelude.{◌≡◌, ◌<◌, ◌^◌, ◌∷◌, [], List, length, get_or, IfOk};
ghost use Rattle.topos_model.specs.declared.ty.Ty.{Ty};
ghost use Rattle.topos_model.specs.declared.term.Term.{Term, Eq};
ghost use Rattle.topos_model.specs.declared.context.MapTy.{MapTy};
ghost use Rattle.topos_model.specs.formulas.Forcing.{World, forces, not_forced};
ghost use Rattle.truth_tables.specs.Standing.{IsTruthTable};
ghost use Rattle.formula_tables.specs.Formulas.{connected_forced, quantified_forced};
ghost use Rattle.internal_interp.specs.Formulas.{AreJoined, AreEquivalent, IsNegatedFrom, IsBoundFrom};

use crate::widths::widths;
use crate::{Context, Interpreter};
use formula_tables::{connect, equivalent, negate, quantified};
use std::alloc::Global;
use topos_model::{NoMemory, Ty};
use truth_tables::{Connective, Quantifier, Truths};

/// Two formulas under a connective.
pub(crate) fn joined(
    alloc: Global,
    interpreter: &Interpreter<'_>,
    context: &Context,
    connective: Connective,
    left: Truths,
    right: Truths,
) -> Result<Truths, NoMemory>
    requires objects { length (get_or context.now.sizes 0 []) < 2 ^ 32 }
    requires known { (w : World) × (maps : List MapTy) × (Γ : List Ty) × (t u : Term) × AreJoined w maps interpreter.now Γ context.now t u left right }
    ensures { IfOk result (λ truths. (w : World) (maps : List MapTy) (Γ : List Ty) (t u : Term) → AreJoined w maps interpreter.now Γ context.now t u left right → IsTruthTable w Γ (connected_forced w connective (forces w t) (forces w u)) truths) }
{
    connect(
        alloc,
        connective,
        interpreter.stages,
        interpreter.store,
        context.place,
        context.tuples(),
        &left,
        &right,
    )
}

/// Where two formulas are equal as truth values: where they are forced along the same arrows.
pub(crate) fn equivalence(
    alloc: Global,
    interpreter: &Interpreter<'_>,
    context: &Context,
    left: Truths,
    right: Truths,
) -> Result<Truths, NoMemory>
    requires objects { length (get_or context.now.sizes 0 []) < 2 ^ 32 }
    requires known { (w : World) × (maps : List MapTy) × (Γ : List Ty) × (t u : Term) × AreEquivalent w maps interpreter.now Γ context.now t u left right }
    ensures { IfOk result (λ truths. (w : World) (maps : List MapTy) (Γ : List Ty) (t u : Term) → AreEquivalent w maps interpreter.now Γ context.now t u left right → IsTruthTable w Γ (forces w (Eq t u)) truths) }
{
    equivalent(
        alloc,
        interpreter.stages,
        interpreter.store,
        context.place,
        context.tuples(),
        &left,
        &right,
    )
}

/// The negation of a formula.
pub(crate) fn negated(
    alloc: Global,
    interpreter: &Interpreter<'_>,
    context: &Context,
    truths: Truths,
) -> Result<Truths, NoMemory>
    requires objects { length (get_or context.now.sizes 0 []) < 2 ^ 32 }
    requires known { (w : World) × (maps : List MapTy) × (Γ : List Ty) × (t : Term) × IsNegatedFrom w maps interpreter.now Γ context.now t truths }
    ensures { IfOk result (λ negated. (w : World) (maps : List MapTy) (Γ : List Ty) (t : Term) → IsNegatedFrom w maps interpreter.now Γ context.now t truths → IsTruthTable w Γ (not_forced w (forces w t)) negated) }
{
    negate(
        alloc,
        interpreter.stages,
        interpreter.store,
        context.place,
        context.tuples(),
        &truths,
    )
}

/// A formula under a quantifier over its last variable.
pub(crate) fn bound(
    alloc: Global,
    interpreter: &Interpreter<'_>,
    context: &Context,
    quantifier: Quantifier,
    ty: &Ty,
    body: Truths,
) -> Result<Truths, NoMemory>
    requires objects { length (get_or context.now.sizes 0 []) < 2 ^ 32 }
    requires known { (w : World) × (maps : List MapTy) × (Γ : List Ty) × (t : Term) × IsBoundFrom w maps interpreter.now Γ context.now ty.now t body }
    ensures { IfOk result (λ truths. (w : World) (maps : List MapTy) (Γ : List Ty) (t : Term) → IsBoundFrom w maps interpreter.now Γ context.now ty.now t body → IsTruthTable w Γ (quantified_forced w quantifier ty.now (forces w t)) truths) }
{
    let widths = widths(alloc, interpreter, ty)?;
    quantified(
        alloc,
        quantifier,
        interpreter.stages,
        interpreter.store,
        context.place,
        context.tuples(),
        widths.as_slice(),
        &body,
    )
}
