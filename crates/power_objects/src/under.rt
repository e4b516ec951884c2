// The pairs at an object under those at the domain of an arrow into it.
ghost use Rattle.std.specs.Prelude.{◌≡◌, ℕ, ◌+◌, ◌^◌, ◌<◌, ◌++◌, length, map, IfOk, OnOk};
ghost use Rattle.std.specs.List.{range_with_len};
ghost use Rattle.topos_model.specs.categories.Category.{into};
ghost use Rattle.topos_model.specs.Laws.{IsInto};
ghost use Rattle.place_closures.specs.Pairs.{AreRestricted, AreStarts, CanAsk, pairs};
ghost use Rattle.power_objects.specs.SubsetRows.{under};

use fin_category::Cat;
use place_closures::{Elements, pair_starts};
use std::alloc::Global;
use topos_model::{NoMemory, Row};

// Puts so many numbers from one on behind the others.
fn push_numbers(start: u32, count: u32, out: &mut Row<u32>) -> Result<(), NoMemory>
    requires { (w : ℕ) → w < count → start + w < 2 ^ 32 }
    ensures pushed { OnOk result (out.new ≡ out.old ++ map (λ w. start + w) (range_with_len 0 count)) }
{
    for w in 0..count {
        out.push(start + w)?;
    }
    Ok(())
}

// For each pair (h, w) at the domain of f the number of (f.h, w) at c.
fn under_row<X: Elements>(
    alloc: Global,
    cat: &Cat,
    x: &X,
    c: u32,
    starts: &[u32],
    f: u32,
) -> Result<Row<u32>, NoMemory>
    requires asked { CanAsk cat.now (X.size x.now) (X.can_count x.now) (X.can_restrict x.now) }
    requires few { length (pairs cat.now (X.size x.now) (X.restriction x.now) c) < 2 ^ 32 }
    requires starts { AreStarts cat.now (X.size x.now) (X.restriction x.now) c starts.now }
    requires arrow { IsInto cat.now c f }
    ensures row { IfOk result (λ row. row ≡ under cat.now (X.size x.now) (X.restriction x.now) c f) }
{
    cat.laws();
    let mut row = Row::new(alloc);
    for h in cat.arrows_into(cat.dom(f)) {
        let start = starts[cat.compose(f, *h) as usize];
        push_numbers(start, x.count(cat.dom(*h)), &mut row)?;
    }
    Ok(row)
}

/// The same for each arrow into c.
pub(crate) fn under_rows<X: Elements>(
    alloc: Global,
    cat: &Cat,
    x: &X,
    c: u32,
) -> Result<Row<Row<u32>>, NoMemory>
    requires object { c < cat.now.objects }
    requires asked { CanAsk cat.now (X.size x.now) (X.can_count x.now) (X.can_restrict x.now) }
    requires few { length (pairs cat.now (X.size x.now) (X.restriction x.now) c) < 2 ^ 32 }
    ensures rows { IfOk result (λ rows. rows ≡ map (under cat.now (X.size x.now) (X.restriction x.now) c) (into cat.now c)) }
{
    let starts = pair_starts(alloc, cat, x, c)?;
    let mut rows = Row::new(alloc);
    for f in cat.arrows_into(c) {
        rows.push(under_row(alloc, cat, x, c, &starts, *f)?)?;
    }
    Ok(rows)
}
