// Elements as values, by recursion.
ghost use Rattle.std.specs.Prelude.{◌≡◌, List, map, IfOk};
ghost use Rattle.finite_lists.specs.Members.{In};
ghost use Rattle.topos_model.specs.declared.ty.Ty.{Two};
ghost use Rattle.topos_model.specs.declared.value.Val.{Sub, Fn};
ghost use Rattle.topos_model.specs.types.Types.{Presheaf};
ghost use Rattle.functor_store.specs.Faithful.{IsFaithful, Stands};
ghost use Rattle.element_values.specs.Known.{Knows, IsElement, HasValue};
ghost use Rattle.element_values.specs.Places.{entry_at, assign_at, IsPlace, IsImage};

use crate::Elements;
use crate::pairs::part_numbers;
use crate::places::{Image, Place, images, members};
use crate::truth_values::truth_value;
use std::alloc::Global;
use topos_model::{Assign, Boxed, Entry, NoMemory, Row, Ty, Val};

/// The element number k of a sealed type at c: of a functor its number, of `Omega` the arrows of the closed sieve, of a product the pair of its parts, of a power type
/// the places that the subset has, and of a function type the value at each place (Mac Lane and Moerdijk, Sheaves in Geometry and Logic, chapters I, IV and VI).
#[cycle(values)]
pub fn element_value(
    alloc: Global,
    elements: &Elements<'_>,
    ty: &Ty,
    c: u32,
    k: u32,
) -> Result<Val, NoMemory>
    requires element { (functors : List Presheaf) × IsElement elements.now functors ty.now c k }
    ensures value { IfOk result (λ v. (functors : List Presheaf) → IsFaithful elements.now.site.now functors elements.now.store.now → Stands elements.now.site.now functors ty.now c k v) }
{
    match ty {
        Ty::Base(_) => Ok(Val::El(k)),
        Ty::One => Ok(Val::Star),
        Ty::Omega => truth_value(alloc, elements, c, k),
        Ty::Two(left, right) => pair(alloc, elements, left, right, c, k),
        Ty::Pow(of) => {
            let places = members(alloc, elements, ty, of, c, k)?;
            subset(alloc, elements, of, places.as_slice())
        }
        Ty::Fun(from, to) => {
            let images = images(alloc, elements, ty, from, to, c, k)?;
            function(alloc, elements, from, to, images.as_slice())
        }
    }
}

// The element number k of a part of a type at c.
#[cycle(values)]
fn part(
    alloc: Global,
    elements: &Elements<'_>,
    ty: &Boxed<Ty>,
    c: u32,
    k: u32,
) -> Result<Val, NoMemory>
    requires element { (functors : List Presheaf) × IsElement elements.now functors ty.now c k }
    ensures value { IfOk result (λ v. HasValue elements.now ty.now c k v) }
{
    element_value(alloc, elements, ty.get(), c, k)
}

// The pair number k at c.
#[cycle(values)]
fn pair(
    alloc: Global,
    elements: &Elements<'_>,
    left: &Boxed<Ty>,
    right: &Boxed<Ty>,
    c: u32,
    k: u32,
) -> Result<Val, NoMemory>
    requires element { (functors : List Presheaf) × IsElement elements.now functors (Two left.now right.now) c k }
    ensures value { IfOk result (λ v. HasValue elements.now (Two left.now right.now) c k v) }
{
    let (i, j) = part_numbers(elements, left, right, c, k);
    let first = part(alloc, elements, left, c, i)?;
    let second = part(alloc, elements, right, c, j)?;
    Ok(Val::Two(Boxed::new(alloc, first)?, Boxed::new(alloc, second)?))
}

// The subset of these places.
#[cycle(values)]
fn subset(
    alloc: Global,
    elements: &Elements<'_>,
    of: &Boxed<Ty>,
    places: &[Place],
) -> Result<Val, NoMemory>
    requires places { (p : Place) → In places.now p → IsPlace elements.now of.now p }
    ensures value { IfOk result (λ v. (functors : List Presheaf) → Knows elements.now functors → v ≡ Sub (map (entry_at elements.now.site.now functors of.now) places.now)) }
{
    let cat = elements.site.cat();
    let mut entries = Row::new(alloc);
    for place in places {
        let arrow = place.arrow;
        let val = part(alloc, elements, of, cat.dom(arrow), place.element)?;
        entries.push(Entry { arrow, val })?;
    }
    Ok(Val::Sub(entries))
}

// The function with these values.
#[cycle(values)]
fn function(
    alloc: Global,
    elements: &Elements<'_>,
    from: &Boxed<Ty>,
    to: &Boxed<Ty>,
    images: &[Image],
) -> Result<Val, NoMemory>
    requires images { (p : Image) → In images.now p → IsImage elements.now from.now to.now p }
    ensures value { IfOk result (λ v. (functors : List Presheaf) → Knows elements.now functors → v ≡ Fn (map (assign_at elements.now.site.now functors from.now to.now) images.now)) }
{
    let cat = elements.site.cat();
    let mut assigns = Row::new(alloc);
    for image in images {
        let arrow = image.arrow;
        let source = cat.dom(arrow);
        let val = part(alloc, elements, from, source, image.element)?;
        let to = part(alloc, elements, to, source, image.value)?;
        assigns.push(Assign { arrow, val, to })?;
    }
    Ok(Val::Fn(assigns))
}
