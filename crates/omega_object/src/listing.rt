// All closed sieves of a site.
ghost use Rattle.std.specs.Prelude.{◌≡◌, ◌^◌, ◌<◌, ◌≤◌, ℕ, [], length, map, IfOk, MatchOption};
ghost use Rattle.std.specs.List.{range_with_len};
ghost use Rattle.finite_lists.specs.Members.{In};
ghost use Rattle.topos_model.specs.categories.Category.{dom, compose};
ghost use Rattle.topos_model.specs.Laws.{IsInto};
ghost use Rattle.topos_model.specs.statements.Form.{max_arrows};
ghost use Rattle.fin_category.specs.ArrowSets.{arrows_in};
ghost use Rattle.fin_category.specs.Masks.{all_added};
ghost use Rattle.closed_sets.specs.Closed.{chosen};
ghost use Rattle.omega_object.specs.TruthValues.{closed_sieves};

use closed_sets::{ClosedListing, list_closed};
use fin_category::{ArrowMask, Cat};
use place_closures::{OneEach, pair_passes};
use std::alloc::Global;
use topologies::Site;
use topos_model::{Bits, NoMemory, Row};

// The arrows at the places of a set.
fn arrows_at(set: &Bits, arrows: &[u32]) -> ArrowMask
    requires places { length set.now ≡ length arrows.now }
    requires few { (f : ℕ) → In arrows.now f → f < max_arrows }
    ensures { arrows_in result ≡ all_added [] (chosen arrows.now set.now) }
{
    let mut mask = ArrowMask::empty();
    'places: for i in 0..arrows.len() {
        if set.get(i) {
            mask.insert(arrows[i]);
        }
    }
    mask
}

/// The closed sieves on c, in order, where there are no more than the room.
pub(crate) fn sieves_on(
    alloc: Global,
    site: &Site,
    c: u32,
    room: u64,
) -> Result<Option<Row<ArrowMask>>, NoMemory>
    requires { c < site.now.category.objects }
    ensures { IfOk result (λ listed. MatchOption listed (room < length (closed_sieves site.now c)) (λ rows. (map arrows_in rows ≡ closed_sieves site.now c) × (length rows ≤ room))) }
{
    let cat = site.cat();
    cat.laws();
    let _topology = site.top();
    let passes = pair_passes(alloc, site, &OneEach, c)?;
    let sets = match list_closed(alloc, &passes, room)? {
        ClosedListing::Over => return Ok(None),
        ClosedListing::All(sets) => sets,
    };
    let arrows = cat.arrows_into(c);
    let mut rows = Row::new(alloc);
    for set in sets.as_slice() {
        rows.push(arrows_at(set, arrows))?;
    }
    Ok(Some(rows))
}

/// The composites f.g with g in a set.
pub(crate) fn composites(cat: &Cat, f: u32, gs: ArrowMask) -> ArrowMask
    requires arrow { f < length cat.now.ends }
    requires arrows { (g : ℕ) → In (arrows_in gs) g → IsInto cat.now (dom cat.now f) g }
    ensures { arrows_in result ≡ all_added [] (map (compose cat.now f) (arrows_in gs)) }
{
    cat.laws();
    let mut mask = ArrowMask::empty();
    for g in gs.iter() {
        mask.insert(cat.compose(f, g));
    }
    mask
}
