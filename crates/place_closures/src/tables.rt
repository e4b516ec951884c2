// The tables of the pairs of an arrow into an object and an element over its domain.
ghost use Rattle.std.specs.Prelude.{◌≡◌, ◌<◌, ◌^◌, ℕ, [], length, get_or, map, IfOk};
ghost use Rattle.std.specs.List.{range_with_len};
ghost use Rattle.finite_lists.specs.Members.{In};
ghost use Rattle.topos_model.specs.categories.Category.{into, dom};
ghost use Rattle.topos_model.specs.Laws.{IsInto};
ghost use Rattle.topos_model.specs.topologies.LeastCovers.{least};
ghost use Rattle.fin_category.specs.ArrowSets.{arrows_in};
ghost use Rattle.place_closures.specs.Pairs.{AreRestricted, AreStarts, CanAsk, pairs, moved, table};

use crate::{Elements, TwoPasses};
use fin_category::{ArrowMask, Cat};
use std::alloc::Global;
use topologies::Site;
use topos_model::{NoMemory, Row};

/// For each arrow into c the number of its first pair, by the number of the arrow.
pub fn pair_starts<X: Elements>(
    alloc: Global,
    cat: &Cat,
    x: &X,
    c: u32,
) -> Result<Vec<u32>, NoMemory>
    requires object { c < cat.now.objects }
    requires asked { CanAsk cat.now (X.size x.now) (X.can_count x.now) (X.can_restrict x.now) }
    requires few { length (pairs cat.now (X.size x.now) (X.restriction x.now) c) < 2 ^ 32 }
    ensures starts { IfOk result (λ starts. AreStarts cat.now (X.size x.now) (X.restriction x.now) c starts.items) }
{
    cat.laws();
    let mut starts = Vec::new(alloc);
    starts.resize(cat.arrows() as usize, 0)?;
    let mut before = 0;
    for f in cat.arrows_into(c) {
        starts[*f as usize] = before;
        before += x.count(cat.dom(*f));
    }
    Ok(starts)
}

// The pairs that (f, w) restricts to along some arrows.
fn moved_row<X: Elements>(
    alloc: Global,
    cat: &Cat,
    x: &X,
    c: u32,
    starts: &[u32],
    f: u32,
    gs: &[u32],
    w: u32,
) -> Result<Row<u32>, NoMemory>
    requires restricts { AreRestricted cat.now (X.size x.now) (X.restriction x.now) }
    requires asked { CanAsk cat.now (X.size x.now) (X.can_count x.now) (X.can_restrict x.now) }
    requires few { length (pairs cat.now (X.size x.now) (X.restriction x.now) c) < 2 ^ 32 }
    requires starts { AreStarts cat.now (X.size x.now) (X.restriction x.now) c starts.now }
    requires arrow { IsInto cat.now c f }
    requires arrows { (g : ℕ) → In gs.now g → IsInto cat.now (dom cat.now f) g }
    requires element { w < X.size x.now (dom cat.now f) }
    ensures { IfOk result (λ row. row ≡ moved cat.now (X.size x.now) (X.restriction x.now) c f gs.now w) }
{
    cat.laws();
    let mut row = Row::new(alloc);
    for g in gs {
        row.push(starts[cat.compose(f, *g) as usize] + x.restrict(*g, w))?;
    }
    Ok(row)
}

// The same for each pair with f.
fn moved_rows<X: Elements>(
    alloc: Global,
    cat: &Cat,
    x: &X,
    c: u32,
    starts: &[u32],
    f: u32,
    gs: &[u32],
) -> Result<Row<Row<u32>>, NoMemory>
    requires restricts { AreRestricted cat.now (X.size x.now) (X.restriction x.now) }
    requires asked { CanAsk cat.now (X.size x.now) (X.can_count x.now) (X.can_restrict x.now) }
    requires few { length (pairs cat.now (X.size x.now) (X.restriction x.now) c) < 2 ^ 32 }
    requires starts { AreStarts cat.now (X.size x.now) (X.restriction x.now) c starts.now }
    requires arrow { IsInto cat.now c f }
    requires arrows { (g : ℕ) → In gs.now g → IsInto cat.now (dom cat.now f) g }
    ensures { IfOk result (λ rows. rows ≡ map (moved cat.now (X.size x.now) (X.restriction x.now) c f gs.now) (range_with_len 0 (X.size x.now (dom cat.now f)))) }
{
    let mut rows = Row::new(alloc);
    for w in 0..x.count(cat.dom(f)) {
        rows.push(moved_row(alloc, cat, x, c, starts, f, gs, w)?)?;
    }
    Ok(rows)
}

// For each pair those that it restricts to.
fn below_table<X: Elements>(
    alloc: Global,
    cat: &Cat,
    x: &X,
    c: u32,
    starts: &[u32],
) -> Result<Row<Row<u32>>, NoMemory>
    requires object { c < cat.now.objects }
    requires restricts { AreRestricted cat.now (X.size x.now) (X.restriction x.now) }
    requires asked { CanAsk cat.now (X.size x.now) (X.can_count x.now) (X.can_restrict x.now) }
    requires few { length (pairs cat.now (X.size x.now) (X.restriction x.now) c) < 2 ^ 32 }
    requires starts { AreStarts cat.now (X.size x.now) (X.restriction x.now) c starts.now }
    ensures { IfOk result (λ rows. rows ≡ table cat.now (X.size x.now) (X.restriction x.now) (into cat.now) c) }
{
    cat.laws();
    let mut rows = Row::new(alloc);
    for f in cat.arrows_into(c) {
        let gs = cat.arrows_into(cat.dom(*f));
        rows.append(moved_rows(alloc, cat, x, c, starts, *f, gs)?)?;
    }
    Ok(rows)
}

// The arrows of a set.
fn arrows_of(alloc: Global, mask: ArrowMask) -> Result<Row<u32>, NoMemory>
    ensures { IfOk result (λ row. row ≡ arrows_in mask) }
{
    let mut row = Row::new(alloc);
    for f in mask.iter() {
        row.push(f)?;
    }
    Ok(row)
}

// For each pair those that it restricts to along the least cover of its stage.
fn cover_table<X: Elements>(
    alloc: Global,
    site: &Site,
    x: &X,
    c: u32,
    starts: &[u32],
) -> Result<Row<Row<u32>>, NoMemory>
    requires object { c < site.now.category.objects }
    requires restricts { AreRestricted site.now.category (X.size x.now) (X.restriction x.now) }
    requires asked { CanAsk site.now.category (X.size x.now) (X.can_count x.now) (X.can_restrict x.now) }
    requires few { length (pairs site.now.category (X.size x.now) (X.restriction x.now) c) < 2 ^ 32 }
    requires starts { AreStarts site.now.category (X.size x.now) (X.restriction x.now) c starts.now }
    ensures { IfOk result (λ rows. rows ≡ table site.now.category (X.size x.now) (X.restriction x.now) (least site.now) c) }
{
    let cat = site.cat();
    cat.laws();
    let mut rows = Row::new(alloc);
    for f in cat.arrows_into(c) {
        let cover = arrows_of(alloc, site.top().least(cat, cat.dom(*f)).arrows())?;
        rows.append(moved_rows(alloc, cat, x, c, starts, *f, cover.as_slice())?)?;
    }
    Ok(rows)
}

/// The closure under restriction and under covers of the sets of pairs (f, w), f into c and w an element at its domain.
pub fn pair_passes<X: Elements>(
    alloc: Global,
    site: &Site,
    x: &X,
    c: u32,
) -> Result<TwoPasses, NoMemory>
    requires object { c < site.now.category.objects }
    requires restricts { AreRestricted site.now.category (X.size x.now) (X.restriction x.now) }
    requires asked { CanAsk site.now.category (X.size x.now) (X.can_count x.now) (X.can_restrict x.now) }
    requires few { length (pairs site.now.category (X.size x.now) (X.restriction x.now) c) < 2 ^ 32 }
    ensures below { IfOk result (λ passes. passes.below ≡ table site.now.category (X.size x.now) (X.restriction x.now) (into site.now.category) c) }
    ensures covers { IfOk result (λ passes. passes.covers ≡ table site.now.category (X.size x.now) (X.restriction x.now) (least site.now) c) }
{
    let cat = site.cat();
    cat.laws();
    let _topology = site.top();
    let starts = pair_starts(alloc, cat, x, c)?;
    let below = below_table(alloc, cat, x, c, &starts)?;
    let covers = cover_table(alloc, site, x, c, &starts)?;
    TwoPasses::new(alloc, below, covers)
}
