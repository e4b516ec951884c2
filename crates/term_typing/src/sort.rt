// What a type has to be where it is found.
ghost use Rattle.std.specs.Prelude.{◌≡◌, Ok};
ghost use Rattle.topos_model.specs.formulas.Typing.{expect, function, power, pair, ends_of};
ghost use Rattle.topos_model.specs.declared.ty.Ty.{Omega};
ghost use Rattle.term_typing.specs.Inferring.{Infers};

use crate::TypeFault;
use std::alloc::Global;
use topos_model::{Boxed, Copied, MapTy, Ty};

/// What comes next, where the type that is found is the one that is needed.
fn expected(
    alloc: Global,
    needed: &Ty,
    found: Boxed<Ty>,
    next: Boxed<Ty>,
) -> Result<Boxed<Ty>, TypeFault>
    ensures { Infers (expect needed.now found (Ok next)) result }
{
    if *needed == *found.get() {
        return Ok(next);
    }
    let needed = needed.copy(alloc)?;
    Err(TypeFault::Expected {
        needed,
        found: found.into_inner(),
    })
}

/// The type of a formula, which is the one that is needed.
pub(crate) fn formula(alloc: Global, found: Boxed<Ty>) -> Result<Boxed<Ty>, TypeFault>
    ensures { Infers (expect Omega found (Ok Omega)) result }
{
    expected(alloc, &Ty::Omega, found, Boxed::new(alloc, Ty::Omega)?)
}

/// The type of an equation.
pub(crate) fn equation(
    alloc: Global,
    left: Boxed<Ty>,
    right: Boxed<Ty>,
) -> Result<Boxed<Ty>, TypeFault>
    ensures { Infers (expect left right (Ok Omega)) result }
{
    expected(alloc, left.get(), right, Boxed::new(alloc, Ty::Omega)?)
}

/// The type of a map's value.
pub(crate) fn image(
    alloc: Global,
    maps: &[MapTy],
    map: u32,
    found: Boxed<Ty>,
) -> Result<Boxed<Ty>, TypeFault>
    ensures { Infers (expect (ends_of maps.now map).dom found (Ok (ends_of maps.now map).cod)) result }
{
    match maps.get(map as usize) {
        Some(ends) => {
            let next = Boxed::new(alloc, ends.cod.copy(alloc)?)?;
            expected(alloc, &ends.dom, found, next)
        }
        None => expected(alloc, &Ty::One, found, Boxed::new(alloc, Ty::One)?),
    }
}

/// The left part of a type of pairs.
pub(crate) fn left_of(found: Boxed<Ty>) -> Result<Boxed<Ty>, TypeFault>
    ensures { Infers (pair found (λ S U. Ok S)) result }
{
    match found.into_inner() {
        Ty::Two(left, _right) => Ok(left),
        found => Err(TypeFault::NotAPair { found }),
    }
}

/// The right part of a type of pairs.
pub(crate) fn right_of(found: Boxed<Ty>) -> Result<Boxed<Ty>, TypeFault>
    ensures { Infers (pair found (λ S U. Ok U)) result }
{
    match found.into_inner() {
        Ty::Two(_left, right) => Ok(right),
        found => Err(TypeFault::NotAPair { found }),
    }
}

/// The type of a function's value at an argument.
pub(crate) fn applied(
    alloc: Global,
    found: Boxed<Ty>,
    argument: Boxed<Ty>,
) -> Result<Boxed<Ty>, TypeFault>
    ensures { Infers (function found (λ S V. expect S argument (Ok V))) result }
{
    match found.into_inner() {
        Ty::Fun(domain, codomain) => expected(alloc, domain.get(), argument, codomain),
        found => Err(TypeFault::NotAFunction { found }),
    }
}

/// The type of the formula that an element is in a set.
pub(crate) fn member(
    alloc: Global,
    element: Boxed<Ty>,
    set: Boxed<Ty>,
) -> Result<Boxed<Ty>, TypeFault>
    ensures { Infers (power set (λ S. expect S element (Ok Omega))) result }
{
    match set.into_inner() {
        Ty::Pow(of) => expected(alloc, of.get(), element, Boxed::new(alloc, Ty::Omega)?),
        found => Err(TypeFault::NotAPower { found }),
    }
}
