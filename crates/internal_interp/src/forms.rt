// Terms by the values of their parts.
ghost use Rattle.std.specs.Prelude.{◌≡◌, ◌<◌, ◌^◌, ℕ, [], List, length, get_or, IfOk};
ghost use Rattle.topos_model.specs.declared.ty.Ty.{Ty};
ghost use Rattle.topos_model.specs.declared.term.Term.{Term, Pair, Fst, Snd, App, Eval, Eq, Member, Not};
ghost use Rattle.topos_model.specs.declared.context.MapTy.{MapTy};
ghost use Rattle.topos_model.specs.formulas.Forcing.{World};
ghost use Rattle.internal_interp.specs.Known.{IsKnown};
ghost use Rattle.internal_interp.specs.Interpretations.{HasValues, HasTruths, HasMeaning, connected_term};

use crate::conversions::truths_of;
use crate::formulas::{equivalence, joined, negated};
use crate::images::image;
use crate::products::{first, pair, second};
use crate::readings::{applied, equated, member};
use crate::{Context, Interpreted, Interpreter, Valued};
use std::alloc::Global;
use topos_model::NoMemory;
use truth_tables::{Connective, Truths};

/// The pair of two terms.
pub(crate) fn pair_term(
    alloc: Global,
    interpreter: &Interpreter<'_>,
    context: &Context,
    left: Valued,
    right: Valued,
) -> Result<Interpreted, NoMemory>
    requires objects { length (get_or context.now.sizes 0 []) < 2 ^ 32 }
    requires known { (w : World) × (maps : List MapTy) × (Γ : List Ty) × (U : Ty) × (t u : Term) × IsKnown w maps interpreter.now Γ U context.now (Pair t u) × HasValues interpreter.now context.now t left × HasValues interpreter.now context.now u right }
    ensures { IfOk result (λ whole. (t u : Term) → HasValues interpreter.now context.now t left → HasValues interpreter.now context.now u right → HasMeaning interpreter.now context.now (Pair t u) whole) }
{
    Ok(Interpreted::Value(pair(alloc, interpreter, context, left, right)?))
}

/// The first part of a term.
pub(crate) fn first_term(
    alloc: Global,
    interpreter: &Interpreter<'_>,
    context: &Context,
    of: Valued,
) -> Result<Interpreted, NoMemory>
    requires objects { length (get_or context.now.sizes 0 []) < 2 ^ 32 }
    requires known { (w : World) × (maps : List MapTy) × (Γ : List Ty) × (U : Ty) × (t : Term) × IsKnown w maps interpreter.now Γ U context.now (Fst t) × HasValues interpreter.now context.now t of }
    ensures { IfOk result (λ whole. (t : Term) → HasValues interpreter.now context.now t of → HasMeaning interpreter.now context.now (Fst t) whole) }
{
    Ok(Interpreted::Value(first(alloc, interpreter, context, of)?))
}

/// The second part of a term.
pub(crate) fn second_term(
    alloc: Global,
    interpreter: &Interpreter<'_>,
    context: &Context,
    of: Valued,
) -> Result<Interpreted, NoMemory>
    requires objects { length (get_or context.now.sizes 0 []) < 2 ^ 32 }
    requires known { (w : World) × (maps : List MapTy) × (Γ : List Ty) × (U : Ty) × (t : Term) × IsKnown w maps interpreter.now Γ U context.now (Snd t) × HasValues interpreter.now context.now t of }
    ensures { IfOk result (λ whole. (t : Term) → HasValues interpreter.now context.now t of → HasMeaning interpreter.now context.now (Snd t) whole) }
{
    Ok(Interpreted::Value(second(alloc, interpreter, context, of)?))
}

/// A map at a term.
pub(crate) fn image_term(
    alloc: Global,
    interpreter: &Interpreter<'_>,
    context: &Context,
    map: u32,
    argument: Valued,
) -> Result<Interpreted, NoMemory>
    requires objects { length (get_or context.now.sizes 0 []) < 2 ^ 32 }
    requires known { (w : World) × (maps : List MapTy) × (Γ : List Ty) × (U : Ty) × (t : Term) × IsKnown w maps interpreter.now Γ U context.now (App map t) × HasValues interpreter.now context.now t argument }
    ensures { IfOk result (λ whole. (t : Term) → HasValues interpreter.now context.now t argument → HasMeaning interpreter.now context.now (App map t) whole) }
{
    Ok(Interpreted::Value(image(alloc, interpreter, context, map, argument)?))
}

/// A function at a term.
pub(crate) fn applied_term(
    alloc: Global,
    interpreter: &Interpreter<'_>,
    context: &Context,
    function: Valued,
    argument: Valued,
) -> Result<Interpreted, NoMemory>
    requires objects { length (get_or context.now.sizes 0 []) < 2 ^ 32 }
    requires known { (w : World) × (maps : List MapTy) × (Γ : List Ty) × (U : Ty) × (t u : Term) × IsKnown w maps interpreter.now Γ U context.now (Eval t u) × HasValues interpreter.now context.now t function × HasValues interpreter.now context.now u argument }
    ensures { IfOk result (λ whole. (t u : Term) → HasValues interpreter.now context.now t function → HasValues interpreter.now context.now u argument → HasMeaning interpreter.now context.now (Eval t u) whole) }
{
    Ok(Interpreted::Value(applied(alloc, interpreter, context, function, argument)?))
}

/// The equation of two terms. Where one of them is a formula, both are of truth values, and no value needs a number.
pub(crate) fn equation(
    alloc: Global,
    interpreter: &Interpreter<'_>,
    context: &Context,
    left: Interpreted,
    right: Interpreted,
) -> Result<Interpreted, NoMemory>
    requires objects { length (get_or context.now.sizes 0 []) < 2 ^ 32 }
    requires known { (w : World) × (maps : List MapTy) × (Γ : List Ty) × (U : Ty) × (t u : Term) × IsKnown w maps interpreter.now Γ U context.now (Eq t u) × HasMeaning interpreter.now context.now t left × HasMeaning interpreter.now context.now u right }
    ensures { IfOk result (λ whole. (t u : Term) → HasMeaning interpreter.now context.now t left → HasMeaning interpreter.now context.now u right → HasMeaning interpreter.now context.now (Eq t u) whole) }
{
    let truths = match left {
        Interpreted::Formula(left) => {
            let right = truths_of(alloc, interpreter, context, right)?;
            equivalence(alloc, interpreter, context, left, right)?
        }
        Interpreted::Value(value) => match right {
            Interpreted::Formula(right) => {
                let left = truths_of(alloc, interpreter, context, Interpreted::Value(value))?;
                equivalence(alloc, interpreter, context, left, right)?
            }
            Interpreted::Value(right) => equated(alloc, interpreter, context, value, right)?,
        },
    };
    Ok(Interpreted::Formula(truths))
}

/// The membership of a term in another.
pub(crate) fn membership(
    alloc: Global,
    interpreter: &Interpreter<'_>,
    context: &Context,
    element: Valued,
    set: Valued,
) -> Result<Interpreted, NoMemory>
    requires objects { length (get_or context.now.sizes 0 []) < 2 ^ 32 }
    requires known { (w : World) × (maps : List MapTy) × (Γ : List Ty) × (U : Ty) × (t u : Term) × IsKnown w maps interpreter.now Γ U context.now (Member t u) × HasValues interpreter.now context.now t element × HasValues interpreter.now context.now u set }
    ensures { IfOk result (λ whole. (t u : Term) → HasValues interpreter.now context.now t element → HasValues interpreter.now context.now u set → HasMeaning interpreter.now context.now (Member t u) whole) }
{
    Ok(Interpreted::Formula(member(alloc, interpreter, context, element, set)?))
}

/// Two formulas under a connective.
pub(crate) fn connected(
    alloc: Global,
    interpreter: &Interpreter<'_>,
    context: &Context,
    connective: Connective,
    left: Truths,
    right: Truths,
) -> Result<Interpreted, NoMemory>
    requires objects { length (get_or context.now.sizes 0 []) < 2 ^ 32 }
    requires known { (w : World) × (maps : List MapTy) × (Γ : List Ty) × (U : Ty) × (t u : Term) × IsKnown w maps interpreter.now Γ U context.now (connected_term connective t u) × HasTruths interpreter.now context.now t left × HasTruths interpreter.now context.now u right }
    ensures { IfOk result (λ whole. (t u : Term) → HasTruths interpreter.now context.now t left → HasTruths interpreter.now context.now u right → HasMeaning interpreter.now context.now (connected_term connective t u) whole) }
{
    Ok(Interpreted::Formula(joined(alloc, interpreter, context, connective, left, right)?))
}

/// The negation of a formula.
pub(crate) fn negation(
    alloc: Global,
    interpreter: &Interpreter<'_>,
    context: &Context,
    truths: Truths,
) -> Result<Interpreted, NoMemory>
    requires objects { length (get_or context.now.sizes 0 []) < 2 ^ 32 }
    requires known { (w : World) × (maps : List MapTy) × (Γ : List Ty) × (U : Ty) × (t : Term) × IsKnown w maps interpreter.now Γ U context.now (Not t) × HasTruths interpreter.now context.now t truths }
    ensures { IfOk result (λ whole. (t : Term) → HasTruths interpreter.now context.now t truths → HasMeaning interpreter.now context.now (Not t) whole) }
{
    Ok(Interpreted::Formula(negated(alloc, interpreter, context, truths)?))
}
