// Terms, by recursion.
ghost use Rattle.std.specs.Prelude.{◌≡◌, ◌<◌, ◌^◌, [], List, length, get_or, IfOk};
ghost use Rattle.topos_model.specs.declared.ty.Ty.{Ty, Omega};
ghost use Rattle.topos_model.specs.declared.term.Term.{Term, Lam, Compr};
ghost use Rattle.topos_model.specs.declared.context.MapTy.{MapTy};
ghost use Rattle.topos_model.specs.formulas.Forcing.{World};
ghost use Rattle.internal_interp.specs.Known.{IsKnown, IsInterpreted};
ghost use Rattle.internal_interp.specs.Interpretations.{HasValues, HasTruths, HasMeaning, quantified_term};

use crate::abstractions::{function, set};
use crate::binding::bind;
use crate::constants::{falsity_term, star_term, truth_term, variable_term};
use crate::conversions::{truths_of, value_of};
use crate::forms::{
    applied_term, connected, equation, first_term, image_term, membership, negation, pair_term,
    second_term,
};
use crate::formulas::bound;
use crate::{Context, Interpreted, Interpreter, Valued};
use std::alloc::Global;
use topos_model::{Boxed, NoMemory, Term, Ty};
use truth_tables::{Connective, Quantifier, Truths};

/// The table of a term over a context: where a formula is forced, and the type and the values of another term, at each object and tuple (Mac Lane and Moerdijk, Sheaves
/// in Geometry and Logic, VI). Each part of the term is interpreted once, in one pass over the tuples of its context.
#[cycle(terms)]
pub fn interpret_term(
    alloc: Global,
    interpreter: &Interpreter<'_>,
    context: &Context,
    term: &Term,
) -> Result<Interpreted, NoMemory>
    requires objects { length (get_or context.now.sizes 0 []) < 2 ^ 32 }
    requires known { (w : World) × (maps : List MapTy) × (Γ : List Ty) × (U : Ty) × IsKnown w maps interpreter.now Γ U context.now term.now }
    ensures { IfOk result (λ interpreted. (w : World) (maps : List MapTy) (Γ : List Ty) (U : Ty) → IsKnown w maps interpreter.now Γ U context.now term.now → IsInterpreted w Γ U term.now interpreted) }
{
    match term {
        Term::Var(place) => variable_term(alloc, interpreter, context, *place),
        Term::Star => star_term(alloc, interpreter, context),
        Term::Pair(left, right) => {
            let (left, right) = values(alloc, interpreter, context, left, right)?;
            pair_term(alloc, interpreter, context, left, right)
        }
        Term::Fst(of) => {
            let of = value_at(alloc, interpreter, context, of)?;
            first_term(alloc, interpreter, context, of)
        }
        Term::Snd(of) => {
            let of = value_at(alloc, interpreter, context, of)?;
            second_term(alloc, interpreter, context, of)
        }
        Term::App(map, argument) => {
            let argument = value_at(alloc, interpreter, context, argument)?;
            image_term(alloc, interpreter, context, *map, argument)
        }
        Term::Eval(function, argument) => {
            let (function, argument) = values(alloc, interpreter, context, function, argument)?;
            applied_term(alloc, interpreter, context, function, argument)
        }
        Term::Lam(ty, body) => function_of(alloc, interpreter, context, ty, body),
        Term::Compr(ty, body) => set_of(alloc, interpreter, context, ty, body),
        Term::Eq(left, right) => {
            let (left, right) = meanings(alloc, interpreter, context, left, right)?;
            equation(alloc, interpreter, context, left, right)
        }
        Term::Member(element, set) => {
            let (element, set) = values(alloc, interpreter, context, element, set)?;
            membership(alloc, interpreter, context, element, set)
        }
        Term::Truth => truth_term(alloc, interpreter, context),
        Term::Falsity => falsity_term(alloc, interpreter, context),
        Term::And(left, right) => {
            let (left, right) = truths(alloc, interpreter, context, left, right)?;
            connected(alloc, interpreter, context, Connective::And, left, right)
        }
        Term::Or(left, right) => {
            let (left, right) = truths(alloc, interpreter, context, left, right)?;
            connected(alloc, interpreter, context, Connective::Or, left, right)
        }
        Term::Implies(left, right) => {
            let (left, right) = truths(alloc, interpreter, context, left, right)?;
            connected(
                alloc,
                interpreter,
                context,
                Connective::Implies,
                left,
                right,
            )
        }
        Term::Not(of) => {
            let of = truths_at(alloc, interpreter, context, of)?;
            negation(alloc, interpreter, context, of)
        }
        Term::Forall(ty, body) => quantified(
            alloc,
            interpreter,
            context,
            Quantifier::Every,
            ty,
            body,
        ),
        Term::Exists(ty, body) => quantified(
            alloc,
            interpreter,
            context,
            Quantifier::Some,
            ty,
            body,
        ),
        Term::Unique(ty, body) => quantified(
            alloc,
            interpreter,
            context,
            Quantifier::One,
            ty,
            body,
        ),
    }
}

/// The values of a term.
#[cycle(terms)]
fn value_at(
    alloc: Global,
    interpreter: &Interpreter<'_>,
    context: &Context,
    term: &Boxed<Term>,
) -> Result<Valued, NoMemory>
    requires objects { length (get_or context.now.sizes 0 []) < 2 ^ 32 }
    requires known { (w : World) × (maps : List MapTy) × (Γ : List Ty) × (U : Ty) × IsKnown w maps interpreter.now Γ U context.now term.now }
    ensures { IfOk result (λ v. HasValues interpreter.now context.now term.now v) }
{
    let interpreted = interpret_term(alloc, interpreter, context, term.get())?;
    value_of(alloc, interpreter, context, interpreted)
}

/// Where a formula is forced.
#[cycle(terms)]
fn truths_at(
    alloc: Global,
    interpreter: &Interpreter<'_>,
    context: &Context,
    term: &Boxed<Term>,
) -> Result<Truths, NoMemory>
    requires objects { length (get_or context.now.sizes 0 []) < 2 ^ 32 }
    requires known { (w : World) × (maps : List MapTy) × (Γ : List Ty) × IsKnown w maps interpreter.now Γ Omega context.now term.now }
    ensures { IfOk result (λ truths. HasTruths interpreter.now context.now term.now truths) }
{
    let interpreted = interpret_term(alloc, interpreter, context, term.get())?;
    truths_of(alloc, interpreter, context, interpreted)
}

/// What two terms are interpreted by.
#[cycle(terms)]
fn meanings(
    alloc: Global,
    interpreter: &Interpreter<'_>,
    context: &Context,
    left: &Boxed<Term>,
    right: &Boxed<Term>,
) -> Result<(Interpreted, Interpreted), NoMemory>
    requires objects { length (get_or context.now.sizes 0 []) < 2 ^ 32 }
    requires left { (w : World) × (maps : List MapTy) × (Γ : List Ty) × (U : Ty) × IsKnown w maps interpreter.now Γ U context.now left.now }
    requires right { (w : World) × (maps : List MapTy) × (Γ : List Ty) × (U : Ty) × IsKnown w maps interpreter.now Γ U context.now right.now }
    ensures left { IfOk result (λ both. HasMeaning interpreter.now context.now left.now both.0) }
    ensures right { IfOk result (λ both. HasMeaning interpreter.now context.now right.now both.1) }
{
    let first = interpret_term(alloc, interpreter, context, left.get())?;
    let second = interpret_term(alloc, interpreter, context, right.get())?;
    Ok((first, second))
}

/// The values of two terms.
#[cycle(terms)]
fn values(
    alloc: Global,
    interpreter: &Interpreter<'_>,
    context: &Context,
    left: &Boxed<Term>,
    right: &Boxed<Term>,
) -> Result<(Valued, Valued), NoMemory>
    requires objects { length (get_or context.now.sizes 0 []) < 2 ^ 32 }
    requires left { (w : World) × (maps : List MapTy) × (Γ : List Ty) × (U : Ty) × IsKnown w maps interpreter.now Γ U context.now left.now }
    requires right { (w : World) × (maps : List MapTy) × (Γ : List Ty) × (U : Ty) × IsKnown w maps interpreter.now Γ U context.now right.now }
    ensures left { IfOk result (λ both. HasValues interpreter.now context.now left.now both.0) }
    ensures right { IfOk result (λ both. HasValues interpreter.now context.now right.now both.1) }
{
    let first = value_at(alloc, interpreter, context, left)?;
    let second = value_at(alloc, interpreter, context, right)?;
    Ok((first, second))
}

/// Where two formulas are forced.
#[cycle(terms)]
fn truths(
    alloc: Global,
    interpreter: &Interpreter<'_>,
    context: &Context,
    left: &Boxed<Term>,
    right: &Boxed<Term>,
) -> Result<(Truths, Truths), NoMemory>
    requires objects { length (get_or context.now.sizes 0 []) < 2 ^ 32 }
    requires left { (w : World) × (maps : List MapTy) × (Γ : List Ty) × IsKnown w maps interpreter.now Γ Omega context.now left.now }
    requires right { (w : World) × (maps : List MapTy) × (Γ : List Ty) × IsKnown w maps interpreter.now Γ Omega context.now right.now }
    ensures left { IfOk result (λ both. HasTruths interpreter.now context.now left.now both.0) }
    ensures right { IfOk result (λ both. HasTruths interpreter.now context.now right.now both.1) }
{
    let first = truths_at(alloc, interpreter, context, left)?;
    let second = truths_at(alloc, interpreter, context, right)?;
    Ok((first, second))
}

/// The function that a term with one variable more defines.
#[cycle(terms)]
fn function_of(
    alloc: Global,
    interpreter: &Interpreter<'_>,
    context: &Context,
    ty: &Ty,
    body: &Boxed<Term>,
) -> Result<Interpreted, NoMemory>
    requires objects { length (get_or context.now.sizes 0 []) < 2 ^ 32 }
    requires known { (w : World) × (maps : List MapTy) × (Γ : List Ty) × (U : Ty) × IsKnown w maps interpreter.now Γ U context.now (Lam ty.now body.now) }
    ensures { IfOk result (λ whole. HasMeaning interpreter.now context.now (Lam ty.now body.now) whole) }
{
    let inner = bind(alloc, interpreter, context, ty)?;
    let values = value_at(alloc, interpreter, &inner, body)?;
    Ok(Interpreted::Value(function(alloc, interpreter, context, ty, values)?))
}

/// The set that a formula with one variable more defines.
#[cycle(terms)]
fn set_of(
    alloc: Global,
    interpreter: &Interpreter<'_>,
    context: &Context,
    ty: &Ty,
    body: &Boxed<Term>,
) -> Result<Interpreted, NoMemory>
    requires objects { length (get_or context.now.sizes 0 []) < 2 ^ 32 }
    requires known { (w : World) × (maps : List MapTy) × (Γ : List Ty) × (U : Ty) × IsKnown w maps interpreter.now Γ U context.now (Compr ty.now body.now) }
    ensures { IfOk result (λ whole. HasMeaning interpreter.now context.now (Compr ty.now body.now) whole) }
{
    let inner = bind(alloc, interpreter, context, ty)?;
    let truths = truths_at(alloc, interpreter, &inner, body)?;
    Ok(Interpreted::Value(set(alloc, interpreter, context, &inner, ty, truths)?))
}

/// A formula with one variable more under a quantifier.
#[cycle(terms)]
fn quantified(
    alloc: Global,
    interpreter: &Interpreter<'_>,
    context: &Context,
    quantifier: Quantifier,
    ty: &Ty,
    body: &Boxed<Term>,
) -> Result<Interpreted, NoMemory>
    requires objects { length (get_or context.now.sizes 0 []) < 2 ^ 32 }
    requires known { (w : World) × (maps : List MapTy) × (Γ : List Ty) × (U : Ty) × IsKnown w maps interpreter.now Γ U context.now (quantified_term quantifier ty.now body.now) }
    ensures { IfOk result (λ whole. HasMeaning interpreter.now context.now (quantified_term quantifier ty.now body.now) whole) }
{
    let inner = bind(alloc, interpreter, context, ty)?;
    let truths = truths_at(alloc, interpreter, &inner, body)?;
    Ok(Interpreted::Formula(bound(alloc, interpreter, context, quantifier, ty, truths)?))
}
