// Sealing a functor from its rows.
ghost use Rattle.std.specs.Prelude.{◌≡◌, ◌+◌, ◌^◌, ◌<◌, ◌++◌, ◌∷◌, [], length, map, None, Some, replicate, IfOk, OnOk, OnErr};
ghost use Rattle.functor_store.specs.Store.{cells, cost, IfBuilding, IsFreeKey};
ghost use Rattle.sealed_functors.specs.Rows.{element_rows, restriction_rows, functor_from, AreShaped, with_all_rows, with_all_restrictions, IsBare, IsOverExactly};

use crate::ElementRows;
use crate::rows::part;
use functor_store::{FunctorId, FunctorStore, StoreFault};
use topos_model::{NoMemory, Ty};

/// Seals a functor whose elements at each object have these rows and restrictions. `Over` says that its cells and those of the store together exceed the budget.
/// After a fault the store is as before.
pub fn seal_rows(
    store: &mut FunctorStore,
    key: Ty,
    at: &[ElementRows],
) -> Result<FunctorId, StoreFault>
    requires idle { store.old.building ≡ None }
    requires free { IsFreeKey store.old.sealed key }
    requires objects { length at.now ≡ store.old.objects }
    requires few { length at.now < 2 ^ 32 }
    requires shaped { AreShaped store.old.ends at.now }
    ensures ok { OnOk result (store.new ≡ record store.old { sealed = store.old.sealed ++ functor_from key at.now ∷ [] }) }
    ensures err { OnErr result (store.new ≡ store.old) }
    ensures place { IfOk result (λ id. id ≡ length store.old.sealed) }
    ensures over { IsOverExactly result (store.old.budget < cells store.old + cost store.old.ends (functor_from key at.now)) }
{
    if let Err(NoMemory) = store.begin(key) {
        return Err(StoreFault::NoMemory);
    }
    match push_all(store, at) {
        Ok(()) => Ok(store.seal()),
        Err(fault) => {
            store.abandon();
            Err(fault)
        }
    }
}

fn push_all(store: &mut FunctorStore, at: &[ElementRows]) -> Result<(), StoreFault>
    requires bare { IfBuilding store.old.building (IsBare store.old.objects) }
    requires objects { length at.now ≡ store.old.objects }
    requires few { length at.now < 2 ^ 32 }
    requires shaped { AreShaped store.old.ends at.now }
    ensures ok { OnOk result (store.new ≡ record store.old { building = with_all_restrictions (with_all_rows store.old.building (map element_rows at.now)) (map restriction_rows at.now) }) }
    ensures err { OnErr result (record store.new { building = None } ≡ record store.old { building = None }) }
    ensures building { IfBuilding store.new.building (λ _. Unit {0}) }
    ensures over { IsOverExactly result (store.old.budget < cells (record store.old { building = with_all_rows store.old.building (map element_rows at.now) })) }
{
    if let Err(fault) = push_rows(store, at) {
        return Err(fault);
    }
    if let Err(NoMemory) = push_all_restrictions(store, at) {
        return Err(StoreFault::NoMemory);
    }
    Ok(())
}

// Pushes all elements, object by object.
fn push_rows(store: &mut FunctorStore, at: &[ElementRows]) -> Result<(), StoreFault>
    requires bare { IfBuilding store.old.building (IsBare store.old.objects) }
    requires objects { length at.now ≡ store.old.objects }
    requires few { length at.now < 2 ^ 32 }
    requires shaped { AreShaped store.old.ends at.now }
    ensures ok { OnOk result (store.new ≡ record store.old { building = with_all_rows store.old.building (map element_rows at.now) }) }
    ensures err { OnErr result (record store.new { building = None } ≡ record store.old { building = None }) }
    ensures building { IfBuilding store.new.building (λ _. Unit {0}) }
    ensures over { IsOverExactly result (store.old.budget < cells (record store.old { building = with_all_rows store.old.building (map element_rows at.now) })) }
{
    'objects: for c in 0..at.len() {
        let here = &at[c];
        'elements: for k in 0..here.count {
            if let Err(fault) = store.push_element(
                c as u32,
                part(here.rows.as_slice(), here.width, k),
            ) {
                return Err(fault);
            }
        }
    }
    let _room = store.room();
    Ok(())
}

// Gives all elements their restrictions.
fn push_all_restrictions(store: &mut FunctorStore, at: &[ElementRows]) -> Result<(), NoMemory>
    requires objects { length at.now ≡ store.old.objects }
    requires few { length at.now < 2 ^ 32 }
    requires pushed { IfBuilding store.old.building (λ F. (F.rows ≡ map element_rows at.now) × (F.restrictions ≡ replicate store.old.objects [])) }
    requires shaped { AreShaped store.old.ends at.now }
    ensures ok { OnOk result (store.new ≡ record store.old { building = with_all_restrictions store.old.building (map restriction_rows at.now) }) }
    ensures err { OnErr result (record store.new { building = None } ≡ record store.old { building = None }) }
    ensures building { IfBuilding store.new.building (λ _. Unit {0}) }
{
    'objects: for c in 0..at.len() {
        let here = &at[c];
        'elements: for k in 0..here.count {
            if let Err(NoMemory) = store.push_restrictions(
                c as u32,
                k,
                part(here.restrictions.as_slice(), here.arrows, k),
            ) {
                return Err(NoMemory);
            }
        }
    }
    Ok(())
}
