// The places of a subset and of a function, by numbers.
ghost use Rattle.std.specs.Prelude.{◌≡◌, ◌++◌, ◌<◌, List, length, map, IfOk, OnOk};
ghost use Rattle.topos_model.specs.declared.ty.Ty.{Pow, Fun};
ghost use Rattle.topos_model.specs.declared.value.Val.{Sub, Fn};
ghost use Rattle.topos_model.specs.types.Types.{Presheaf};
ghost use Rattle.finite_lists.specs.Members.{In};
ghost use Rattle.functor_store.specs.Faithful.{Stands};
ghost use Rattle.sealed_types.specs.Sealed.{sizes_in};
ghost use Rattle.element_values.specs.Known.{Knows, IsElement};
ghost use Rattle.element_values.specs.Places.{places_over, places_at, marked, imaged, entry_at, assign_at, IsPlace, IsImage};

use crate::Elements;
use crate::sealed::place_of;
use fin_category::Cat;
use functor_store::{FunctorId, FunctorStore};
use std::alloc::Global;
use topos_model::{Boxed, NoMemory, Row, Ty};

/// An arrow, and the number of an element over its domain.
#[derive(Clone, Copy, Drop)]
pub(crate) struct Place {
    pub(crate) arrow: u32,
    pub(crate) element: u32,
}

/// A place of a function, and the number of the value there.
#[derive(Clone, Copy, Drop)]
pub(crate) struct Image {
    pub(crate) arrow: u32,
    pub(crate) element: u32,
    pub(crate) value: u32,
}

// Puts the places with the arrow f last.
fn push_over(
    cat: &Cat,
    store: &FunctorStore,
    of: FunctorId,
    f: u32,
    places: &mut Row<Place>,
) -> Result<(), NoMemory>
    requires objects { store.now.objects ≡ cat.now.objects }
    requires sealed { of < length store.now.sealed }
    requires arrow { f < length cat.now.ends }
    ensures { OnOk result (places.new ≡ places.old ++ places_over cat.now (sizes_in store.now of) f) }
{
    for w in 0..store.count(of, cat.dom(f)) {
        places.push(Place {
            arrow: f,
            element: w,
        })?;
    }
    Ok(())
}

// The places of subsets and functions at c.
fn places_at(
    alloc: Global,
    cat: &Cat,
    store: &FunctorStore,
    of: FunctorId,
    c: u32,
) -> Result<Row<Place>, NoMemory>
    requires objects { store.now.objects ≡ cat.now.objects }
    requires sealed { of < length store.now.sealed }
    requires object { c < cat.now.objects }
    ensures { IfOk result (λ places. places ≡ places_at cat.now (sizes_in store.now of) c) }
{
    let mut places = Row::new(alloc);
    for f in cat.arrows_into(c) {
        push_over(cat, store, of, *f, &mut places)?;
    }
    Ok(places)
}

// The places at which a row has 1.
fn marked(alloc: Global, places: &[Place], row: &[u32]) -> Result<Row<Place>, NoMemory>
    requires { length row.now ≡ length places.now }
    ensures { IfOk result (λ kept. kept ≡ marked places.now row.now) }
{
    let mut kept = Row::new(alloc);
    for (i, place) in places.iter().enumerate() {
        let is_member = row[i] == 1;
        if is_member {
            kept.push(*place)?;
        }
    }
    Ok(kept)
}

// The places with the numbers of a row.
fn imaged(alloc: Global, places: &[Place], row: &[u32]) -> Result<Row<Image>, NoMemory>
    requires { length row.now ≡ length places.now }
    ensures { IfOk result (λ images. images ≡ imaged places.now row.now) }
{
    let mut images = Row::new(alloc);
    for (i, place) in places.iter().enumerate() {
        images.push(Image {
            arrow: place.arrow,
            element: place.element,
            value: row[i],
        })?;
    }
    Ok(images)
}

/// The places of the subset number k at c: those at which its row has 1.
pub(crate) fn members(
    alloc: Global,
    elements: &Elements<'_>,
    ty: &Ty,
    of: &Boxed<Ty>,
    c: u32,
    k: u32,
) -> Result<Row<Place>, NoMemory>
    requires subset { ty.now ≡ Pow of.now }
    requires element { (functors : List Presheaf) × IsElement elements.now functors (Pow of.now) c k }
    ensures places { IfOk result (λ places. (p : Place) → In places p → IsPlace elements.now of.now p) }
    ensures value { IfOk result (λ places. (functors : List Presheaf) → Knows elements.now functors → Stands elements.now.site.now functors (Pow of.now) c k (Sub (map (entry_at elements.now.site.now functors of.now) places))) }
{
    let cat = elements.site.cat();
    cat.laws();
    let store = elements.store;
    let whole = place_of(store, ty);
    let part = place_of(store, of.get());
    let places = places_at(alloc, cat, store, part, c)?;
    marked(alloc, places.as_slice(), store.element(whole, c, k))
}

/// The places of the function number k at c, with the numbers of its values.
pub(crate) fn images(
    alloc: Global,
    elements: &Elements<'_>,
    ty: &Ty,
    from: &Boxed<Ty>,
    to: &Boxed<Ty>,
    c: u32,
    k: u32,
) -> Result<Row<Image>, NoMemory>
    requires function { ty.now ≡ Fun from.now to.now }
    requires element { (functors : List Presheaf) × IsElement elements.now functors (Fun from.now to.now) c k }
    ensures images { IfOk result (λ images. (p : Image) → In images p → IsImage elements.now from.now to.now p) }
    ensures value { IfOk result (λ images. (functors : List Presheaf) → Knows elements.now functors → Stands elements.now.site.now functors (Fun from.now to.now) c k (Fn (map (assign_at elements.now.site.now functors from.now to.now) images))) }
{
    let cat = elements.site.cat();
    cat.laws();
    let store = elements.store;
    let whole = place_of(store, ty);
    let domain = place_of(store, from.get());
    let places = places_at(alloc, cat, store, domain, c)?;
    imaged(alloc, places.as_slice(), store.element(whole, c, k))
}
