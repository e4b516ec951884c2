// The natural assignments with all their restrictions.
ghost use Rattle.std.specs.Prelude.{◌≡◌, ◌<◌, ◌≤◌, ◌^◌, length, IfOk, MatchOption};
ghost use Rattle.sealed_types.specs.Sealed.{sizes_in, restrictions_in};
ghost use Rattle.function_objects.specs.Parts.{IsPart};
ghost use Rattle.function_objects.specs.Functions.{function_cells, AreClosed, AreFunctionRows, AreAllRows};
ghost use Rattle.function_objects.specs.Listed.{AreListed};

use crate::listing::{Listed, rows_within};
use crate::numbers::push_numbers;
use crate::starts::place_starts;
use fin_category::Cat;
use functor_store::{FunctorId, FunctorStore};
use sealed_functors::ElementRows;
use std::alloc::Global;
use topos_model::{Copied, NoMemory, Row};

// How many numbers each row has, where there is a row.
fn width_of(listed: &Listed) -> u32
    requires few { 0 < listed.now.rows.count → listed.now.places < 2 ^ 32 }
    ensures { 0 < listed.now.rows.count → result ≡ listed.now.places }
{
    if listed.rows.count == 0 {
        0
    } else {
        listed.places as u32
    }
}

// The natural assignments at c, with the number of each under each arrow into c.
fn element_rows(
    alloc: Global,
    cat: &Cat,
    store: &FunctorStore,
    s: FunctorId,
    t: FunctorId,
    room: u64,
    listed: &[Listed],
    c: u32,
) -> Result<ElementRows, NoMemory>
    requires domain { IsPart cat.now store.now s }
    requires codomain { IsPart cat.now store.now t }
    requires closed { AreClosed cat.now (sizes_in store.now s) (restrictions_in store.now s) (sizes_in store.now t) (restrictions_in store.now t) }
    requires listed { AreListed cat.now (sizes_in store.now s) (restrictions_in store.now s) (sizes_in store.now t) (restrictions_in store.now t) room listed.now }
    requires room { room < 2 ^ 32 }
    requires object { c < cat.now.objects }
    ensures { IfOk result (AreFunctionRows cat.now (sizes_in store.now s) (restrictions_in store.now s) (sizes_in store.now t) (restrictions_in store.now t) c) }
{
    cat.laws();
    let starts = place_starts(alloc, cat, store, s, c)?;
    let here = &listed[c as usize];
    let mut scratch = Row::new(alloc);
    let mut restrictions = Row::new(alloc);
    for n in 0..here.rows.count {
        push_numbers(
            cat,
            store,
            s,
            t,
            room,
            listed,
            c,
            &starts,
            n,
            &mut scratch,
            &mut restrictions,
        )?;
    }
    Ok(ElementRows {
        count: here.rows.count as u32,
        width: width_of(here),
        arrows: cat.arrows_into(c).len() as u32,
        rows: here.rows.numbers.copy(alloc)?,
        restrictions,
    })
}

// The same at each object, where their cells are within the room.
pub(crate) fn all_element_rows(
    alloc: Global,
    cat: &Cat,
    store: &FunctorStore,
    s: FunctorId,
    t: FunctorId,
    room: u64,
) -> Result<Option<Row<ElementRows>>, NoMemory>
    requires domain { IsPart cat.now store.now s }
    requires codomain { IsPart cat.now store.now t }
    requires closed { AreClosed cat.now (sizes_in store.now s) (restrictions_in store.now s) (sizes_in store.now t) (restrictions_in store.now t) }
    requires room { room < 2 ^ 32 }
    ensures { IfOk result (λ made. MatchOption made (room < function_cells cat.now (sizes_in store.now s) (restrictions_in store.now s) (sizes_in store.now t) (restrictions_in store.now t)) (AreAllRows cat.now (sizes_in store.now s) (restrictions_in store.now s) (sizes_in store.now t) (restrictions_in store.now t))) }
{
    match rows_within(alloc, cat, store, s, t, room)? {
        None => Ok(None),
        Some(listed) => {
            let mut all = Row::new(alloc);
            for c in 0..cat.objects() {
                all.push(element_rows(alloc, cat, store, s, t, room, listed.as_slice(), c)?)?;
            }
            Ok(Some(all))
        }
    }
}
