ghost use Rattle.std.specs.Prelude.{◌≡◌, [], ◌∷◌, None, Some, IfOk};
ghost use Rattle.functor_store.specs.TwoObjects.{two_objects, two_elements, two_restricted};

use crate::{FunctorStore, StoreFault};
use row_arena::RowArena;
use std::alloc::Global;
use std::test::Fail;
use topos_model::{NoMemory, Row, Ty};

// A store for 9 cells over two objects, their identities, and two arrows from the first to the second.
fn over_two_objects(alloc: Global) -> Result<FunctorStore, NoMemory>
    ensures store { IfOk result (λ store. store ≡ two_objects [] None) }
{
    let mut ends = Row::new(alloc);
    ends.push((0, 0))?;
    ends.push((1, 1))?;
    ends.push((0, 1))?;
    ends.push((0, 1))?;
    FunctorStore::new(alloc, 2, ends, 9)
}

// One element over each object, the first with these entries.
fn with_two_elements(alloc: Global, entries: &[u32]) -> Result<FunctorStore, StoreFault>
    ensures store { IfOk result (λ store. store ≡ two_objects [] (Some (two_elements entries.now))) }
{
    let mut store = over_two_objects(alloc)?;
    store.begin(Ty::Omega)?;
    store.push_element(0, entries)?;
    store.push_element(1, &[])?;
    Ok(store)
}

// The same, with restrictions and sealed.
fn with_sealed_functor(alloc: Global) -> Result<FunctorStore, StoreFault>
    ensures store { IfOk result (λ store. store ≡ two_objects (two_restricted (7 ∷ 8 ∷ []) ∷ []) None) }
{
    let mut store = with_two_elements(alloc, &[7, 8])?;
    store.push_restrictions(0, 0, &[0])?;
    store.push_restrictions(1, 0, &[0, 5, 6])?;
    store.seal();
    Ok(store)
}

/// The first element costs 2 cells, and each other one 4.
#[test]
fn third_element_exceeds_the_budget(rt: HostRuntime) -> Result<(), Fail> {
    let mut store = with_two_elements(rt.alloc(), &[])?;
    let third = store.push_element(1, &[]);
    assert!(rt; matches!(third, Err(StoreFault::Over)));
    assert_eq!(rt; store.cells(), 6);
    store.abandon();
    assert_eq!(rt; store.cells(), 0);
    assert!(rt; store.find(&Ty::Omega).is_none());
    Ok(())
}

/// One element over each object, the first with two entries.
#[test]
fn sealed_functor_reads_back(rt: HostRuntime) -> Result<(), Fail> {
    let mut store = with_sealed_functor(rt.alloc())?;
    assert_eq!(rt; store.cells(), 8);
    assert_eq!(rt; store.find(&Ty::Omega), Some(0));
    assert_eq!(rt; store.count(0, 1), 1);
    assert_eq!(rt; store.element(0, 0, 0), [7, 8].as_slice());
    assert_eq!(rt; store.restrict(0, 2, 0), 5);
    assert_eq!(rt; store.restrict(0, 3, 0), 6);
    assert!(rt; store.charge(2).is_err());
    assert!(rt; store.charge(1).is_ok());
    assert_eq!(rt; store.cells(), 9);
    Ok(())
}

/// Rows stay where they are while pages come, and a cut gives up the last ones.
#[test]
fn rows_of_an_arena_stay(rt: HostRuntime) -> Result<(), Fail> {
    let mut arena = RowArena::new(rt.alloc());
    arena.reserve(2, 5)?;
    let first = arena.append(&[1, 2, 3]);
    arena.append(&[]);
    assert_eq!(rt; arena.cells(), 3);
    arena.reserve(1, 1_000_000)?;
    assert_eq!(rt; arena.row(first), [1, 2, 3].as_slice());
    let (rows, cells) = arena.spare();
    assert!(rt; rows >= 1 && cells >= 1_000_000);
    arena.cut(1);
    assert_eq!(rt; arena.row(0), [1, 2, 3].as_slice());
    assert_eq!(rt; (arena.rows(), arena.cells()), (1, 3));
    Ok(())
}
