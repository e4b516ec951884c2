// The rows under arrows, by their numbers.
ghost use Rattle.std.specs.Prelude.{◌≡◌, ◌++◌, ◌+◌, ◌*◌, ◌<◌, ◌≤◌, ◌^◌, ℕ, [], length, get_or, map, IfOk, OnOk};
ghost use Rattle.std.specs.List.{range_with_len};
ghost use Rattle.topos_model.specs.Laws.{IsInto};
ghost use Rattle.place_closures.specs.Pairs.{AreStarts, pairs};
ghost use Rattle.sealed_types.specs.Sealed.{sizes_in, restrictions_in};
ghost use Rattle.function_objects.specs.Parts.{IsPart};
ghost use Rattle.function_objects.specs.Functions.{function_rows, under_row, AreClosed, ArePushed, AreFunctionRows};
ghost use Rattle.function_objects.specs.Listed.{AreListed};

use crate::listing::Listed;
use fin_category::Cat;
use functor_store::{FunctorId, FunctorStore};
use std::alloc::Global;
use topos_model::{NoMemory, Row};

// Puts so many numbers of a row last, from the start on.
fn push_block(row: &[u32], start: usize, count: u32, out: &mut Row<u32>) -> Result<(), NoMemory>
    requires { start + count ≤ length row.now }
    ensures { OnOk result (out.new ≡ out.old ++ map (λ w. get_or row.now (start + w) 0) (range_with_len 0 count)) }
{
    let _len = row.len();
    for w in 0..count {
        out.push(row[start + w as usize])?;
    }
    Ok(())
}

// Puts the row under h last.
fn push_under(
    cat: &Cat,
    store: &FunctorStore,
    s: FunctorId,
    c: u32,
    starts: &[usize],
    h: u32,
    row: &[u32],
    out: &mut Row<u32>,
) -> Result<(), NoMemory>
    requires part { IsPart cat.now store.now s }
    requires starts { AreStarts cat.now (sizes_in store.now s) (restrictions_in store.now s) c starts.now }
    requires arrow { IsInto cat.now c h }
    requires long { length row.now ≡ length (pairs cat.now (sizes_in store.now s) (restrictions_in store.now s) c) }
    ensures { OnOk result (out.new ≡ out.old ++ under_row cat.now (sizes_in store.now s) (restrictions_in store.now s) c h row.now) }
{
    cat.laws();
    for f in cat.arrows_into(cat.dom(h)) {
        let start = starts[cat.compose(h, *f) as usize];
        push_block(row, start, store.count(s, cat.dom(*f)), out)?;
    }
    Ok(())
}

// Puts the numbers of the rows under all arrows into c last, for the row number n.
pub(crate) fn push_numbers(
    cat: &Cat,
    store: &FunctorStore,
    s: FunctorId,
    t: FunctorId,
    room: u64,
    listed: &[Listed],
    c: u32,
    starts: &[usize],
    n: u64,
    scratch: &mut Row<u32>,
    out: &mut Row<u32>,
) -> Result<(), NoMemory>
    requires domain { IsPart cat.now store.now s }
    requires codomain { IsPart cat.now store.now t }
    requires closed { AreClosed cat.now (sizes_in store.now s) (restrictions_in store.now s) (sizes_in store.now t) (restrictions_in store.now t) }
    requires listed { AreListed cat.now (sizes_in store.now s) (restrictions_in store.now s) (sizes_in store.now t) (restrictions_in store.now t) room listed.now }
    requires room { room < 2 ^ 32 }
    requires object { c < cat.now.objects }
    requires starts { AreStarts cat.now (sizes_in store.now s) (restrictions_in store.now s) c starts.now }
    requires number { n < length (function_rows cat.now (sizes_in store.now s) (restrictions_in store.now s) (sizes_in store.now t) (restrictions_in store.now t) c) }
    ensures pushed { OnOk result (ArePushed cat.now (sizes_in store.now s) (restrictions_in store.now s) (sizes_in store.now t) (restrictions_in store.now t) c (get_or (function_rows cat.now (sizes_in store.now s) (restrictions_in store.now s) (sizes_in store.now t) (restrictions_in store.now t) c) n []) out.old out.new) }
{
    cat.laws();
    // Which functor has the values, and the room, are conditions alone.
    let _ = (t, room);
    let here = &listed[c as usize];
    let row = here.rows.row(n, here.places);
    for h in cat.arrows_into(c) {
        scratch.truncate(0);
        push_under(cat, store, s, c, starts, *h, row, scratch)?;
        let there = &listed[cat.dom(*h) as usize];
        out.push(there.rows.number_of(scratch.as_slice()) as u32)?;
    }
    Ok(())
}
