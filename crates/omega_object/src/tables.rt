// The truth values of a site, as they are made.
ghost use Rattle.std.specs.Prelude.{◌≡◌, ◌^◌, ◌<◌, ◌≤◌, ℕ, [], length, map, IfOk, MatchOption};
ghost use Rattle.std.specs.List.{range_with_len};
ghost use Rattle.topos_model.specs.categories.Category.{into, dom};
ghost use Rattle.topos_model.specs.topologies.LeastCovers.{least};
ghost use Rattle.fin_category.specs.ArrowSets.{arrows_in};
ghost use Rattle.omega_object.specs.TruthValues.{closed_sieves};
ghost use Rattle.omega_object.specs.Tables.{IsOmegaOn, composites_of, sieve_cells};

use crate::Omega;
use crate::listing::{composites, sieves_on};
use fin_category::{ArrowMask, Cat};
use std::alloc::Global;
use topologies::Site;
use topos_model::{NoMemory, Row};

// The closed sieves on each object, where their cells are within the room.
fn sieves_within(
    alloc: Global,
    site: &Site,
    room: u64,
) -> Result<Option<Row<Row<ArrowMask>>>, NoMemory>
    ensures { IfOk result (λ listed. MatchOption listed (room < sieve_cells site.now) (λ all. (map (map arrows_in) all ≡ map (closed_sieves site.now) (range_with_len 0 site.now.category.objects)) × (sieve_cells site.now ≤ room))) }
{
    let cat = site.cat();
    let mut left = room;
    let mut all = Row::new(alloc);
    for c in 0..cat.objects() {
        let cost = 1 + cat.arrows_into(c).len() as u64;
        match sieves_on(alloc, site, c, left / cost)? {
            None => return Ok(None),
            Some(rows) => {
                left -= rows.len() as u64 * cost;
                all.push(rows)?;
            }
        }
    }
    Ok(Some(all))
}

// The arrows into each object.
fn into_each(alloc: Global, cat: &Cat) -> Result<Row<ArrowMask>, NoMemory>
    ensures { IfOk result (λ row. map arrows_in row ≡ map (into cat.now) (range_with_len 0 cat.now.objects)) }
{
    let mut row = Row::new(alloc);
    for c in 0..cat.objects() {
        row.push(cat.into(c))?;
    }
    Ok(row)
}

// The composites of each arrow with all arrows before it.
fn below_each(alloc: Global, cat: &Cat) -> Result<Row<ArrowMask>, NoMemory>
    ensures { IfOk result (λ row. map arrows_in row ≡ map (λ f. composites_of cat.now f (into cat.now (dom cat.now f))) (range_with_len 0 (length cat.now.ends))) }
{
    let mut row = Row::new(alloc);
    for f in 0..cat.arrows() {
        row.push(composites(cat, f, cat.into(cat.dom(f))))?;
    }
    Ok(row)
}

// The composites of each arrow with those of the least cover of its domain.
fn covers_each(alloc: Global, site: &Site) -> Result<Row<ArrowMask>, NoMemory>
    ensures { IfOk result (λ row. map arrows_in row ≡ map (λ f. composites_of site.now.category f (least site.now (dom site.now.category f))) (range_with_len 0 (length site.now.category.ends))) }
{
    let cat = site.cat();
    cat.laws();
    let top = site.top();
    let mut row = Row::new(alloc);
    for f in 0..cat.arrows() {
        row.push(composites(cat, f, top.least(cat, cat.dom(f)).arrows()))?;
    }
    Ok(row)
}

/// The truth values of a site, where the cells of their functor are within the room.
pub(crate) fn omega_within(alloc: Global, site: &Site, room: u64) -> Result<Option<Omega>, NoMemory>
    requires { room < 2 ^ 32 }
    ensures { IfOk result (λ made. MatchOption made (room < sieve_cells site.now) (λ values. IsOmegaOn site.now values × (sieve_cells site.now ≤ room))) }
{
    let cat = site.cat();
    cat.laws();
    let _topology = site.top();
    match sieves_within(alloc, site, room)? {
        None => Ok(None),
        Some(sieves) => {
            let into = into_each(alloc, cat)?;
            let below = below_each(alloc, cat)?;
            let covers = covers_each(alloc, site)?;
            Ok(Some(Omega {
                sieves,
                into,
                below,
                covers,
            }))
        }
    }
}
