// Truth along arrows.
ghost use Rattle.std.specs.Prelude.{◌≡◌, ◌<◌, ◌^◌, ℕ, [], true, length, get_or, IfOk};
ghost use Rattle.std.specs.List.{list_all};
ghost use Rattle.functor_store.specs.Store.{functor_at, restrictions_at};
ghost use Rattle.truth_tables.specs.Tables.{table, bit, number, along, IsOver};
ghost use Rattle.truth_tables.specs.Arrows.{AreLanding, ArePlaces, AreRestricted, IsReadable};

use crate::Truths;
use crate::tables::{bit, row_at, table};
use functor_store::{FunctorId, FunctorStore};
use std::alloc::Global;
use topos_model::{NoMemory, Row};

// Whether a tuple's restrictions along the chosen arrows have their truth value.
fn holds_along(truths: &Truths, sources: &[u32], restrictions: &[u32], chosen: &[u32]) -> bool
    requires arrows { length restrictions.now ≡ length sources.now }
    requires landing { AreLanding truths.now sources.now restrictions.now chosen.now }
    ensures { result ≡ list_all (along truths.now sources.now restrictions.now) chosen.now }
{
    for j in chosen {
        let place = *j as usize;
        if !bit(truths, sources[place], restrictions[place]) {
            return false;
        }
    }
    true
}

/// At each tuple of a sealed context whether all its restrictions along the chosen arrows into the object are true. The arrows into each object are given by their sources, and
/// the chosen ones by their places among these.
pub fn everywhere(
    alloc: Global,
    store: &FunctorStore,
    context: FunctorId,
    sizes: &[u32],
    sources: &[Row<u32>],
    chosen: &[Row<u32>],
    truths: &Truths,
) -> Result<Truths, NoMemory>
    requires objects { length sizes.now < 2 ^ 32 }
    requires sealed { context < length store.now.sealed }
    requires site { length sizes.now ≡ store.now.objects }
    requires restricted { AreRestricted (functor_at store.now.sealed context) store.now.ends sizes.now sources.now }
    requires chosen { ArePlaces sources.now chosen.now }
    requires truths { IsOver sizes.now truths.now }
    ensures { IfOk result (λ everywhere. everywhere ≡ table sizes.now (λ c i. list_all (along truths.now (get_or sources.now c []) (restrictions_at (functor_at store.now.sealed context) c i)) (get_or chosen.now c []))) }
{
    table(
        alloc,
        sizes,
        |c, i|
            requires { IsReadable truths.now sources.now chosen.now store.now context c i }
            ensures { result ≡ list_all (along truths.entry.now (get_or sources.entry.now c []) (restrictions_at (functor_at store.entry.now.sealed context) c i)) (get_or chosen.entry.now c []) }
        {
            holds_along(
                truths,
                row_at(sources, c),
                store.restrictions(context, c, i),
                row_at(chosen, c),
            )
        },
    )
}
