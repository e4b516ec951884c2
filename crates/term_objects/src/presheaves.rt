// Types as presheaves of numbers.
ghost use Rattle.std.specs.Prelude.{◌≡◌, ◌<◌, ℕ, length, get_or, map, IfOk};
ghost use Rattle.std.specs.List.{range_with_len};
ghost use Rattle.finite_lists.specs.Members.{In};
ghost use Rattle.topos_model.specs.declared.ty.Ty.{Base};
ghost use Rattle.topos_model.specs.categories.Category.{cod};
ghost use Rattle.topos_model.specs.Laws.{IsFunctor};
ghost use Rattle.topos_model.specs.statements.Needs.{parts};
ghost use Rattle.type_laws.specs.TypeLaws.{TypeFunctor};
ghost use Rattle.functor_store.specs.Store.{functor_at, size_at, restriction_along};
ghost use Rattle.functor_store.specs.Faithful.{Holds};
ghost use Rattle.truth_tables.specs.Tables.{row};
ghost use Rattle.term_tables.specs.Parts.{IsSealed};
ghost use Rattle.sealed_world.specs.SealedWorlds.{HasTypes};

use fin_category::Cat;
use functor_store::{FunctorId, FunctorStore};
use presheaf_core::Functor;
use sealed_world::SealedWorld;
use std::alloc::Global;
use topos_model::{NoMemory, Row, Ty};

// The place of a type that is sealed.
fn place_of(store: &FunctorStore, ty: &Ty) -> FunctorId
    requires held { Holds store.now ty.now }
    ensures place { IsSealed store.now ty.now result }
{
    match store.find(ty) {
        Some(id) => id,
        None => unreachable!(),
    }
}

// How many elements a sealed functor has at each of so many objects.
fn sealed_sizes(
    alloc: Global,
    store: &FunctorStore,
    id: FunctorId,
    objects: u32,
) -> Result<Row<u32>, NoMemory>
    requires sealed { id < length store.now.sealed }
    requires site { objects ≡ store.now.objects }
    ensures { IfOk result (λ sizes. sizes ≡ row objects (size_at (functor_at store.now.sealed id))) }
{
    let mut sizes = Row::new(alloc);
    for c in 0..objects {
        sizes.push(store.count(id, c))?;
    }
    Ok(sizes)
}

// The restrictions of the elements of a sealed functor along f, of which there are so many at its codomain.
fn sealed_row(
    alloc: Global,
    store: &FunctorStore,
    id: FunctorId,
    f: u32,
    size: u32,
) -> Result<Row<u32>, NoMemory>
    requires sealed { id < length store.now.sealed }
    requires arrow { f < length store.now.ends }
    requires elements { size ≡ size_at (functor_at store.now.sealed id) ((get_or store.now.ends f (0, 0)).1) }
    ensures { IfOk result (λ numbers. numbers ≡ row size (restriction_along store.now.ends (functor_at store.now.sealed id) f)) }
{
    let mut numbers = Row::new(alloc);
    for k in 0..size {
        numbers.push(store.restrict(id, f, k))?;
    }
    Ok(numbers)
}

// The restrictions of the elements of a sealed functor along each arrow.
fn sealed_rows(
    alloc: Global,
    cat: &Cat,
    store: &FunctorStore,
    id: FunctorId,
) -> Result<Row<Row<u32>>, NoMemory>
    requires sealed { id < length store.now.sealed }
    requires objects { store.now.objects ≡ cat.now.objects }
    requires ends { store.now.ends ≡ cat.now.ends }
    ensures { IfOk result (λ rows. rows ≡ row (length cat.now.ends) (λ f. row (size_at (functor_at store.now.sealed id) (cod cat.now f)) (restriction_along store.now.ends (functor_at store.now.sealed id) f))) }
{
    let mut rows = Row::new(alloc);
    for f in 0..cat.arrows() {
        let size = store.count(id, cat.cod(f));
        rows.push(sealed_row(alloc, store, id, f, size)?)?;
    }
    Ok(rows)
}

/// A type, which is sealed with its parts, as a presheaf: the element number x at an object is its x-th element there (Mac Lane and Moerdijk, VI.5).
pub fn type_presheaf(alloc: Global, world: &SealedWorld, ty: &Ty) -> Result<Functor, NoMemory>
    requires named { (n : ℕ) → In (parts ty.now) (Base n) → n < length world.now.functors }
    requires counted { HasTypes (parts ty.now) world.now }
    ensures value { IfOk result (λ X. X ≡ TypeFunctor world.now.site world.now.functors ty.now) }
    ensures lawful { IfOk result (λ X. IsFunctor world.now.site.category X) }
{
    let cat = world.site().cat();
    let objects = cat.objects();
    let store = world.store();
    let id = place_of(store, ty);
    let sizes = sealed_sizes(alloc, store, id, objects)?;
    let along = sealed_rows(alloc, cat, store, id)?;
    Ok(Functor::from_rows(cat, sizes, along))
}

// The numbers below size, in order.
fn numbers_below(alloc: Global, size: u32) -> Result<Row<u32>, NoMemory>
    ensures { IfOk result (λ numbers. numbers ≡ range_with_len 0 size) }
{
    let mut numbers = Row::new(alloc);
    for x in 0..size {
        numbers.push(x)?;
    }
    Ok(numbers)
}

/// The rows of the identity of a presheaf: at each object each element goes to itself.
pub fn identity_rows(alloc: Global, functor: &Functor) -> Result<Row<Row<u32>>, NoMemory>
    ensures { IfOk result (λ rows. rows ≡ map (λ n. range_with_len 0 n) functor.now.sizes) }
{
    let mut rows = Row::new(alloc);
    let sizes = functor.sizes();
    for size in sizes {
        rows.push(numbers_below(alloc, *size)?)?;
    }
    Ok(rows)
}
