// The rows of closed sets of pairs, with their restrictions.
ghost use Rattle.std.specs.Prelude.{◌≡◌, ℕ, ◌^◌, ◌<◌, ◌≤◌, ◌++◌, length, map, IfOk, OnOk};
ghost use Rattle.std.specs.List.{range_with_len};
ghost use Rattle.finite_lists.specs.Members.{In};
ghost use Rattle.topos_model.specs.categories.Category.{into};
ghost use Rattle.sealed_functors.specs.Rows.{rows_at};
ghost use Rattle.place_closures.specs.Pairs.{AreRestricted, CanAsk};
ghost use Rattle.power_objects.specs.SubsetRows.{digit, under, closed_sets, subset_row, subset_cells, AreSubsetRows};

use crate::listing::pair_count;
use crate::search::number_of;
use crate::under::under_rows;
use place_closures::Elements;
use sealed_functors::ElementRows;
use std::alloc::Global;
use topologies::Site;
use topos_model::{Bits, NoMemory, Row};

// Puts 1 or 0 for each place of a set behind the others.
fn push_digits(set: &Bits, out: &mut Row<u32>) -> Result<(), NoMemory>
    ensures pushed { OnOk result (out.new ≡ out.old ++ map digit set.now) }
{
    for i in 0..set.len() {
        out.push(if set.get(i) { 1 } else { 0 })?;
    }
    Ok(())
}

// Puts the numbers of the restrictions of a closed set at c behind the others.
fn push_restrictions<X: Elements>(
    site: &Site,
    x: &X,
    all: &[Row<Bits>],
    along: &[Row<u32>],
    c: u32,
    set: &Bits,
    out: &mut Row<u32>,
) -> Result<(), NoMemory>
    requires object { c < site.now.category.objects }
    requires restricts { AreRestricted site.now.category (X.size x.now) (X.restriction x.now) }
    requires few { subset_cells site.now (X.size x.now) (X.restriction x.now) < 2 ^ 32 }
    requires all { all.now ≡ map (closed_sets site.now (X.size x.now) (X.restriction x.now)) (range_with_len 0 site.now.category.objects) }
    requires along { along.now ≡ map (under site.now.category (X.size x.now) (X.restriction x.now) c) (into site.now.category c) }
    requires set { In (closed_sets site.now (X.size x.now) (X.restriction x.now) c) set.now }
    ensures pushed { OnOk result (out.new ≡ out.old ++ subset_row site.now (X.size x.now) (X.restriction x.now) c set.now) }
{
    let cat = site.cat();
    cat.laws();
    let _topology = site.top();
    let arrows = cat.arrows_into(c);
    for i in 0..arrows.len() {
        let sets = all[cat.dom(arrows[i]) as usize].as_slice();
        out.push(number_of(sets, set, along[i].as_slice()))?;
    }
    Ok(())
}

// The closed sets at c with all their restrictions.
fn subset_rows<X: Elements>(
    alloc: Global,
    site: &Site,
    x: &X,
    all: &[Row<Bits>],
    c: u32,
) -> Result<ElementRows, NoMemory>
    requires object { c < site.now.category.objects }
    requires restricts { AreRestricted site.now.category (X.size x.now) (X.restriction x.now) }
    requires asked { CanAsk site.now.category (X.size x.now) (X.can_count x.now) (X.can_restrict x.now) }
    requires few { subset_cells site.now (X.size x.now) (X.restriction x.now) < 2 ^ 32 }
    requires all { all.now ≡ map (closed_sets site.now (X.size x.now) (X.restriction x.now)) (range_with_len 0 site.now.category.objects) }
    ensures rows { IfOk result (λ rows. AreSubsetRows site.now (X.size x.now) (X.restriction x.now) c rows) }
{
    let cat = site.cat();
    cat.laws();
    let _topology = site.top();
    let along = under_rows(alloc, cat, x, c)?;
    let sets = all[c as usize].as_slice();
    let mut rows = Row::new(alloc);
    let mut restrictions = Row::new(alloc);
    for set in sets {
        push_digits(set, &mut rows)?;
        push_restrictions(site, x, all, along.as_slice(), c, set, &mut restrictions)?;
    }
    Ok(ElementRows {
        count: sets.len() as u32,
        width: pair_count(cat, x, c) as u32,
        arrows: cat.arrows_into(c).len() as u32,
        rows,
        restrictions,
    })
}

/// The same at each object.
pub(crate) fn all_subset_rows<X: Elements>(
    alloc: Global,
    site: &Site,
    x: &X,
    all: &[Row<Bits>],
) -> Result<Row<ElementRows>, NoMemory>
    requires restricts { AreRestricted site.now.category (X.size x.now) (X.restriction x.now) }
    requires asked { CanAsk site.now.category (X.size x.now) (X.can_count x.now) (X.can_restrict x.now) }
    requires few { subset_cells site.now (X.size x.now) (X.restriction x.now) < 2 ^ 32 }
    requires all { all.now ≡ map (closed_sets site.now (X.size x.now) (X.restriction x.now)) (range_with_len 0 site.now.category.objects) }
    ensures objects { IfOk result (λ rows. length rows ≡ site.now.category.objects) }
    ensures rows { IfOk result (λ rows. (c : ℕ) → c < site.now.category.objects → AreSubsetRows site.now (X.size x.now) (X.restriction x.now) c (rows_at rows c)) }
{
    let mut rows = Row::new(alloc);
    for c in 0..site.cat().objects() {
        rows.push(subset_rows(alloc, site, x, all, c)?)?;
    }
    Ok(rows)
}
