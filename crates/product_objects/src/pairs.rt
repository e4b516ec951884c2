// The pairs of the elements of two sealed functors.
ghost use Rattle.std.specs.Prelude.{◌≡◌, ℕ, ◌+◌, ◌^◌, ◌<◌, ◌≤◌, ◌++◌, length, map, IfOk, OnOk};
ghost use Rattle.std.specs.List.{range_with_len};
ghost use Rattle.std.specs.Bool.{Decides};
ghost use Rattle.topos_model.specs.categories.Category.{dom, into};
ghost use Rattle.sealed_functors.specs.Rows.{rows_at};
ghost use Rattle.sealed_types.specs.Sealed.{sizes_in, restrictions_in};
ghost use Rattle.product_objects.specs.PairRows.{pair_at, ArePairRows, pair_cells, AreFactors, AreFewPairs};

use fin_category::Cat;
use functor_store::{FunctorId, FunctorStore};
use sealed_functors::ElementRows;
use std::alloc::Global;
use topos_model::{NoMemory, Row};

// Whether the cells of all pairs are within the room.
pub(crate) fn pairs_fit(
    cat: &Cat,
    store: &FunctorStore,
    s: FunctorId,
    t: FunctorId,
    room: u64,
) -> bool
    requires factors { AreFactors cat.now store.now s t }
    ensures fit { Decides result (pair_cells cat.now (sizes_in store.now s) (sizes_in store.now t) (restrictions_in store.now s) (restrictions_in store.now t) ≤ room) }
{
    let mut left = room;
    for c in 0..cat.objects() {
        let cost = 1 + cat.arrows_into(c).len() as u64;
        let count = u64::from(store.count(s, c)) * u64::from(store.count(t, c));
        if left / cost < count {
            return false;
        }
        left -= count * cost;
    }
    true
}

// How many elements a functor has at the domain of each arrow into c.
fn widths_into(
    alloc: Global,
    cat: &Cat,
    store: &FunctorStore,
    id: FunctorId,
    c: u32,
) -> Result<Row<u32>, NoMemory>
    requires sealed { id < length store.now.sealed }
    requires site { store.now.objects ≡ cat.now.objects }
    requires object { c < cat.now.objects }
    ensures { IfOk result (λ widths. widths ≡ map (λ f. sizes_in store.now id (dom cat.now f)) (into cat.now c)) }
{
    let mut widths = Row::new(alloc);
    for f in cat.arrows_into(c) {
        widths.push(store.count(id, cat.dom(*f)))?;
    }
    Ok(widths)
}

// Puts the restrictions of a pair behind the others, from those of its parts. The widths are the numbers of second parts.
fn push_pair(
    widths: &[u32],
    first: &[u32],
    second: &[u32],
    out: &mut Row<u32>,
) -> Result<(), NoMemory>
    requires first { length first.now ≡ length widths.now }
    requires second { length second.now ≡ length widths.now }
    requires few { (j : ℕ) → j < length widths.now → pair_at widths.now first.now second.now j < 2 ^ 32 }
    ensures pushed { OnOk result (out.new ≡ out.old ++ map (pair_at widths.now first.now second.now) (range_with_len 0 (length widths.now))) }
{
    for j in 0..widths.len() {
        out.push(first[j] * widths[j] + second[j])?;
    }
    Ok(())
}

// The pairs at c with all their restrictions.
fn pair_rows(
    alloc: Global,
    cat: &Cat,
    store: &FunctorStore,
    s: FunctorId,
    t: FunctorId,
    c: u32,
) -> Result<ElementRows, NoMemory>
    requires factors { AreFactors cat.now store.now s t }
    requires few { AreFewPairs cat.now store.now s t }
    requires object { c < cat.now.objects }
    ensures rows { IfOk result (λ rows. ArePairRows cat.now (sizes_in store.now s) (sizes_in store.now t) (restrictions_in store.now s) (restrictions_in store.now t) c rows) }
{
    cat.laws();
    let first = store.count(s, c);
    let second = store.count(t, c);
    let widths = widths_into(alloc, cat, store, t, c)?;
    let mut restrictions = Row::new(alloc);
    'first: for x in 0..first {
        let left = store.restrictions(s, c, x);
        'second: for y in 0..second {
            let right = store.restrictions(t, c, y);
            push_pair(widths.as_slice(), left, right, &mut restrictions)?;
        }
    }
    Ok(ElementRows {
        count: first * second,
        width: 0,
        arrows: cat.arrows_into(c).len() as u32,
        rows: Row::new(alloc),
        restrictions,
    })
}

// The same at each object.
pub(crate) fn all_pair_rows(
    alloc: Global,
    cat: &Cat,
    store: &FunctorStore,
    s: FunctorId,
    t: FunctorId,
) -> Result<Row<ElementRows>, NoMemory>
    requires factors { AreFactors cat.now store.now s t }
    requires few { AreFewPairs cat.now store.now s t }
    ensures objects { IfOk result (λ all. length all ≡ cat.now.objects) }
    ensures rows { IfOk result (λ all. (c : ℕ) → c < cat.now.objects → ArePairRows cat.now (sizes_in store.now s) (sizes_in store.now t) (restrictions_in store.now s) (restrictions_in store.now t) c (rows_at all c)) }
{
    let mut all = Row::new(alloc);
    for c in 0..cat.objects() {
        all.push(pair_rows(alloc, cat, store, s, t, c)?)?;
    }
    Ok(all)
}
