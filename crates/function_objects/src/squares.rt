// The places of functions at an object: their bounds, and the squares that a natural assignment makes commute.
ghost use Rattle.std.specs.Prelude.{◌≡◌, ◌++◌, ◌+◌, ◌<◌, ◌^◌, length, map, replicate, IfOk, OnOk};
ghost use Rattle.std.specs.List.{range_with_len};
ghost use Rattle.topos_model.specs.categories.Category.{dom, cod};
ghost use Rattle.topos_model.specs.Laws.{IsInto};
ghost use Rattle.place_closures.specs.Pairs.{AreStarts, pairs};
ghost use Rattle.sealed_types.specs.Sealed.{sizes_in, restrictions_in};
ghost use Rattle.function_objects.specs.Parts.{IsPart};
ghost use Rattle.function_objects.specs.Functions.{pair_squares, arrow_squares, function_squares, function_bounds, restriction_table};

use fin_category::Cat;
use functor_store::{FunctorId, FunctorStore};
use natural_search::Square;
use std::alloc::Global;
use topos_model::{NoMemory, Row};

// Puts the squares of the pair (f, w) last.
fn push_pair_squares(
    cat: &Cat,
    store: &FunctorStore,
    s: FunctorId,
    c: u32,
    starts: &[usize],
    f: u32,
    w: u32,
    squares: &mut Row<Square>,
) -> Result<(), NoMemory>
    requires part { IsPart cat.now store.now s }
    requires starts { AreStarts cat.now (sizes_in store.now s) (restrictions_in store.now s) c starts.now }
    requires few { length (pairs cat.now (sizes_in store.now s) (restrictions_in store.now s) c) < 2 ^ 60 }
    requires arrow { IsInto cat.now c f }
    requires element { w < sizes_in store.now s (dom cat.now f) }
    ensures { OnOk result (squares.new ≡ squares.old ++ pair_squares cat.now (sizes_in store.now s) (restrictions_in store.now s) c f w) }
{
    cat.laws();
    let element = starts[f as usize] + w as usize;
    for g in cat.arrows_into(cat.dom(f)) {
        if *g >= cat.objects() {
            squares.push(Square {
                arrow: *g,
                element,
                restricted: starts[cat.compose(f, *g) as usize] + store.restrict(s, *g, w) as usize,
            })?;
        }
    }
    Ok(())
}

// The same for each element over the domain of f.
fn push_arrow_squares(
    cat: &Cat,
    store: &FunctorStore,
    s: FunctorId,
    c: u32,
    starts: &[usize],
    f: u32,
    squares: &mut Row<Square>,
) -> Result<(), NoMemory>
    requires part { IsPart cat.now store.now s }
    requires starts { AreStarts cat.now (sizes_in store.now s) (restrictions_in store.now s) c starts.now }
    requires few { length (pairs cat.now (sizes_in store.now s) (restrictions_in store.now s) c) < 2 ^ 60 }
    requires arrow { IsInto cat.now c f }
    ensures { OnOk result (squares.new ≡ squares.old ++ arrow_squares cat.now (sizes_in store.now s) (restrictions_in store.now s) c f) }
{
    cat.laws();
    for w in 0..store.count(s, cat.dom(f)) {
        push_pair_squares(cat, store, s, c, starts, f, w, squares)?;
    }
    Ok(())
}

// All squares at c.
pub(crate) fn function_squares(
    alloc: Global,
    cat: &Cat,
    store: &FunctorStore,
    s: FunctorId,
    c: u32,
    starts: &[usize],
) -> Result<Row<Square>, NoMemory>
    requires part { IsPart cat.now store.now s }
    requires object { c < cat.now.objects }
    requires starts { AreStarts cat.now (sizes_in store.now s) (restrictions_in store.now s) c starts.now }
    requires few { length (pairs cat.now (sizes_in store.now s) (restrictions_in store.now s) c) < 2 ^ 60 }
    ensures { IfOk result (λ squares. squares ≡ function_squares cat.now (sizes_in store.now s) (restrictions_in store.now s) c) }
{
    cat.laws();
    let mut squares = Row::new(alloc);
    for f in cat.arrows_into(c) {
        push_arrow_squares(cat, store, s, c, starts, *f, &mut squares)?;
    }
    Ok(squares)
}

// Puts so many equal numbers last.
fn push_times(row: &mut Row<u32>, number: u32, count: u32) -> Result<(), NoMemory>
    ensures { OnOk result (row.new ≡ row.old ++ replicate count number) }
{
    for _ in 0..count {
        row.push(number)?;
    }
    Ok(())
}

// For each place at c how many values there are.
pub(crate) fn function_bounds(
    alloc: Global,
    cat: &Cat,
    store: &FunctorStore,
    s: FunctorId,
    t: FunctorId,
    c: u32,
) -> Result<Row<u32>, NoMemory>
    requires domain { IsPart cat.now store.now s }
    requires codomain { IsPart cat.now store.now t }
    requires object { c < cat.now.objects }
    ensures { IfOk result (λ bounds. bounds ≡ function_bounds cat.now (sizes_in store.now s) (restrictions_in store.now s) (sizes_in store.now t) c) }
{
    cat.laws();
    let mut bounds = Row::new(alloc);
    for f in cat.arrows_into(c) {
        let d = cat.dom(*f);
        push_times(&mut bounds, store.count(t, d), store.count(s, d))?;
    }
    Ok(bounds)
}

// The restrictions along f of all elements at its codomain.
fn restrictions_along(
    alloc: Global,
    cat: &Cat,
    store: &FunctorStore,
    t: FunctorId,
    f: u32,
) -> Result<Row<u32>, NoMemory>
    requires part { IsPart cat.now store.now t }
    requires arrow { f < length cat.now.ends }
    ensures { IfOk result (λ row. row ≡ map (restrictions_in store.now t f) (range_with_len 0 (sizes_in store.now t (cod cat.now f)))) }
{
    cat.laws();
    let mut row = Row::new(alloc);
    for y in 0..store.count(t, cat.cod(f)) {
        row.push(store.restrict(t, f, y))?;
    }
    Ok(row)
}

// The same along each arrow.
pub(crate) fn restriction_table(
    alloc: Global,
    cat: &Cat,
    store: &FunctorStore,
    t: FunctorId,
) -> Result<Row<Row<u32>>, NoMemory>
    requires part { IsPart cat.now store.now t }
    ensures { IfOk result (λ table. table ≡ restriction_table cat.now (sizes_in store.now t) (restrictions_in store.now t)) }
{
    let mut table = Row::new(alloc);
    for f in 0..cat.arrows() {
        table.push(restrictions_along(alloc, cat, store, t, f)?)?;
    }
    Ok(table)
}
