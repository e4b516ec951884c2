// The natural assignments at each object, listed within a room.
ghost use Rattle.std.specs.Prelude.{◌≡◌, ◌<◌, ◌≤◌, ◌^◌, length, IfOk, MatchOption};
ghost use Rattle.natural_search.specs.Domains.{ArePreimages};
ghost use Rattle.natural_search.specs.Rows.{AreAll};
ghost use Rattle.sealed_types.specs.Sealed.{sizes_in, restrictions_in};
ghost use Rattle.function_objects.specs.Parts.{IsPart};
ghost use Rattle.function_objects.specs.Functions.{function_rows, function_bounds, function_cells, restriction_table};
ghost use Rattle.function_objects.specs.Listed.{AreListed};

use crate::squares::{function_bounds, function_squares, restriction_table};
use crate::starts::place_starts;
use fin_category::Cat;
use functor_store::{FunctorId, FunctorStore};
use natural_search::{FoundRows, Preimages, all_rows};
use std::alloc::Global;
use topos_model::{NoMemory, Row};

/// The natural assignments at an object: a row for each, with a number for each place.
#[derive(Drop)]
pub(crate) struct Listed {
    pub(crate) rows: FoundRows,
    pub(crate) places: usize,
}

// The natural assignments at c, where there are no more than the room.
fn rows_on(
    alloc: Global,
    cat: &Cat,
    store: &FunctorStore,
    s: FunctorId,
    t: FunctorId,
    table: &[Row<u32>],
    preimages: &Preimages,
    c: u32,
    bounds: &[u32],
    room: u64,
) -> Result<Option<FoundRows>, NoMemory>
    requires domain { IsPart cat.now store.now s }
    requires codomain { IsPart cat.now store.now t }
    requires table { table.now ≡ restriction_table cat.now (sizes_in store.now t) (restrictions_in store.now t) }
    requires preimages { ArePreimages table.now preimages.now.masks.items }
    requires object { c < cat.now.objects }
    requires bounds { bounds.now ≡ function_bounds cat.now (sizes_in store.now s) (restrictions_in store.now s) (sizes_in store.now t) c }
    requires room { room < 2 ^ 32 }
    ensures { IfOk result (AreAll room (function_rows cat.now (sizes_in store.now s) (restrictions_in store.now s) (sizes_in store.now t) (restrictions_in store.now t) c)) }
{
    cat.laws();
    let starts = place_starts(alloc, cat, store, s, c)?;
    let squares = function_squares(alloc, cat, store, s, c, &starts)?;
    all_rows(alloc, table, preimages, bounds, squares.as_slice(), room)
}

// The natural assignments at each object, where their cells are within the room.
pub(crate) fn rows_within(
    alloc: Global,
    cat: &Cat,
    store: &FunctorStore,
    s: FunctorId,
    t: FunctorId,
    room: u64,
) -> Result<Option<Row<Listed>>, NoMemory>
    requires domain { IsPart cat.now store.now s }
    requires codomain { IsPart cat.now store.now t }
    requires room { room < 2 ^ 32 }
    ensures { IfOk result (λ listed. MatchOption listed (room < function_cells cat.now (sizes_in store.now s) (restrictions_in store.now s) (sizes_in store.now t) (restrictions_in store.now t)) (λ all. AreListed cat.now (sizes_in store.now s) (restrictions_in store.now s) (sizes_in store.now t) (restrictions_in store.now t) room all)) }
{
    cat.laws();
    let table = restriction_table(alloc, cat, store, t)?;
    let preimages = Preimages::of(alloc, table.as_slice())?;
    let mut left = room;
    let mut all = Row::new(alloc);
    for c in 0..cat.objects() {
        let bounds = function_bounds(alloc, cat, store, s, t, c)?;
        let places = bounds.len();
        let cost = 1 + cat.arrows_into(c).len() as u64 + places as u64;
        match rows_on(
            alloc,
            cat,
            store,
            s,
            t,
            table.as_slice(),
            &preimages,
            c,
            bounds.as_slice(),
            left / cost,
        )? {
            None => return Ok(None),
            Some(rows) => {
                left -= rows.count * cost;
                all.push(Listed { rows, places })?;
            }
        }
    }
    Ok(Some(all))
}
