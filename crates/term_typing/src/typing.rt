// The type of a term, and the types that it counts.
ghost use Rattle.std.specs.Prelude.{◌≡◌, ◌∷◌, ◌++◌, ◌↔◌, reverse, IfOk, OnOk};
ghost use Rattle.std.specs.List.{flat_map};
ghost use Rattle.finite_lists.specs.Members.{In};
ghost use Rattle.topos_model.specs.declared.ty.Ty.{Ty};
ghost use Rattle.topos_model.specs.formulas.Typing.{typed};
ghost use Rattle.topos_model.specs.statements.Needs.{parts, product, term_needs};
ghost use Rattle.term_typing.specs.Inferring.{Infers, InfersBoth, both_formulas, type_of};
ghost use Rattle.term_typing.specs.Noted.{inside, noted};

use crate::product::context_product;
use crate::scope::variable;
use crate::sort::{applied, equation, formula, image, left_of, member, right_of};
use crate::{Counted, TypeFault};
use std::alloc::Global;
use topos_model::{Boxed, Copied, Ctx, Env, MapTy, Row, Term, Ty};

/// The type of a term in a context, or its first fault: parts of a term come before it, depth first and left to right, each in the context of its binders.
/// A variable that nothing binds has the type `One`, and a map without a number goes from `One` to `One`. Want of memory may come before any fault.
pub fn infer(alloc: Global, env: &Env, ctx: &Ctx, term: &Term) -> Result<Ty, TypeFault>
    ensures typing { Infers (typed env.now.maps (reverse ctx.now.types) term.now) result }
{
    let found = counted(alloc, env.maps.as_slice(), ctx, term)?;
    Ok(found.ty)
}

/// The type of a term in a context with the types that the term counts, found in one pass, or its first fault as from `infer`. The types that are counted are those that are
/// listed and their parts.
pub fn counted(alloc: Global, maps: &[MapTy], ctx: &Ctx, term: &Term) -> Result<Counted, TypeFault>
    ensures typing { Infers (typed maps.now (reverse ctx.now.types) term.now) (type_of result) }
    ensures types { IfOk result (λ counted. (T : Ty) → In (flat_map parts counted.types) T ↔ In (term_needs maps.now (reverse ctx.now.types) term.now) T) }
{
    let mut listed = Row::new(alloc);
    listed.push(context_product(alloc, ctx.types.as_slice())?)?;
    let mut types = ctx.types.copy(alloc)?;
    let found = inferred(alloc, maps, &mut types, &mut listed, term)?;
    Ok(Counted {
        ty: found.into_inner(),
        types: listed,
    })
}

/// The type of a term, where the types of the variables in scope are given from the outermost on. What the term counts is put last in the list.
#[cycle(terms)]
fn inferred(
    alloc: Global,
    maps: &[MapTy],
    types: &mut Row<Ty>,
    listed: &mut Row<Ty>,
    term: &Term,
) -> Result<Boxed<Ty>, TypeFault>
    ensures typing { Infers (typed maps.now (reverse types.old) term.now) result }
    ensures scope { OnOk result (types.new ≡ types.old) }
    ensures noted { OnOk result (listed.new ≡ listed.old ++ noted maps.now (reverse types.old) term.now) }
{
    let found = by_form(alloc, maps, types, listed, term)?;
    listed.push(found.get().copy(alloc)?)?;
    Ok(found)
}

/// The same for each form of term, without its own type in the list.
#[cycle(terms)]
fn by_form(
    alloc: Global,
    maps: &[MapTy],
    types: &mut Row<Ty>,
    listed: &mut Row<Ty>,
    term: &Term,
) -> Result<Boxed<Ty>, TypeFault>
    ensures typing { Infers (typed maps.now (reverse types.old) term.now) result }
    ensures scope { OnOk result (types.new ≡ types.old) }
    ensures noted { OnOk result (listed.new ≡ listed.old ++ inside maps.now (reverse types.old) term.now) }
{
    match term {
        Term::Var(place) => variable(alloc, types, *place),
        Term::Star => Ok(Boxed::new(alloc, Ty::One)?),
        Term::Pair(left, right) => {
            let (left, right) = both(alloc, maps, types, listed, left, right)?;
            Ok(Boxed::new(alloc, Ty::Two(left, right))?)
        }
        Term::Fst(of) => left_of(inferred(alloc, maps, types, listed, of.get())?),
        Term::Snd(of) => right_of(inferred(alloc, maps, types, listed, of.get())?),
        Term::App(map, of) => {
            let found = inferred(alloc, maps, types, listed, of.get())?;
            image(alloc, maps, *map, found)
        }
        Term::Eval(function, argument) => {
            let (function, argument) = both(alloc, maps, types, listed, function, argument)?;
            applied(alloc, function, argument)
        }
        Term::Lam(ty, body) => {
            let codomain = under_binder(alloc, maps, types, listed, ty, body)?;
            let domain = Boxed::new(alloc, ty.copy(alloc)?)?;
            Ok(Boxed::new(alloc, Ty::Fun(domain, codomain))?)
        }
        Term::Compr(ty, body) => {
            formula(alloc, under_binder(alloc, maps, types, listed, ty, body)?)?;
            let of = Boxed::new(alloc, ty.copy(alloc)?)?;
            Ok(Boxed::new(alloc, Ty::Pow(of))?)
        }
        Term::Eq(left, right) => {
            let (left, right) = both(alloc, maps, types, listed, left, right)?;
            equation(alloc, left, right)
        }
        Term::Member(element, set) => {
            let (element, set) = both(alloc, maps, types, listed, element, set)?;
            member(alloc, element, set)
        }
        Term::Truth | Term::Falsity => Ok(Boxed::new(alloc, Ty::Omega)?),
        Term::And(left, right) | Term::Or(left, right) | Term::Implies(left, right) => {
            formulas(alloc, maps, types, listed, left, right)
        }
        Term::Not(of) => formula(alloc, inferred(alloc, maps, types, listed, of.get())?),
        Term::Forall(ty, body) | Term::Exists(ty, body) | Term::Unique(ty, body) => {
            formula(alloc, under_binder(alloc, maps, types, listed, ty, body)?)
        }
    }
}

/// The types of two terms, one after the other.
#[cycle(terms)]
fn both(
    alloc: Global,
    maps: &[MapTy],
    types: &mut Row<Ty>,
    listed: &mut Row<Ty>,
    left: &Boxed<Term>,
    right: &Boxed<Term>,
) -> Result<(Boxed<Ty>, Boxed<Ty>), TypeFault>
    ensures typing { InfersBoth (typed maps.now (reverse types.old) left.now) (typed maps.now (reverse types.old) right.now) result }
    ensures scope { OnOk result (types.new ≡ types.old) }
    ensures noted { OnOk result (listed.new ≡ listed.old ++ noted maps.now (reverse types.old) left.now ++ noted maps.now (reverse types.old) right.now) }
{
    let first = inferred(alloc, maps, types, listed, left.get())?;
    let second = inferred(alloc, maps, types, listed, right.get())?;
    Ok((first, second))
}

/// The type of a formula that is made of two formulas.
#[cycle(terms)]
fn formulas(
    alloc: Global,
    maps: &[MapTy],
    types: &mut Row<Ty>,
    listed: &mut Row<Ty>,
    left: &Boxed<Term>,
    right: &Boxed<Term>,
) -> Result<Boxed<Ty>, TypeFault>
    ensures typing { Infers (both_formulas (typed maps.now (reverse types.old) left.now) (typed maps.now (reverse types.old) right.now)) result }
    ensures scope { OnOk result (types.new ≡ types.old) }
    ensures noted { OnOk result (listed.new ≡ listed.old ++ noted maps.now (reverse types.old) left.now ++ noted maps.now (reverse types.old) right.now) }
{
    formula(alloc, inferred(alloc, maps, types, listed, left.get())?)?;
    formula(alloc, inferred(alloc, maps, types, listed, right.get())?)
}

/// The type of a term with one variable more in scope.
#[cycle(terms)]
fn under_binder(
    alloc: Global,
    maps: &[MapTy],
    types: &mut Row<Ty>,
    listed: &mut Row<Ty>,
    ty: &Ty,
    body: &Boxed<Term>,
) -> Result<Boxed<Ty>, TypeFault>
    ensures typing { Infers (typed maps.now (ty.now ∷ reverse types.old) body.now) result }
    ensures scope { OnOk result (types.new ≡ types.old) }
    ensures noted { OnOk result (listed.new ≡ listed.old ++ product (ty.now ∷ reverse types.old) ∷ noted maps.now (ty.now ∷ reverse types.old) body.now) }
{
    let count = types.len();
    types.push(ty.copy(alloc)?)?;
    listed.push(context_product(alloc, types.as_slice())?)?;
    let found = inferred(alloc, maps, types, listed, body.get())?;
    types.truncate(count);
    Ok(found)
}
