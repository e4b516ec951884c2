// All closed sets of pairs, within the room.
ghost use Rattle.std.specs.Prelude.{◌≡◌, ◌+◌, ◌*◌, ◌^◌, ◌<◌, ◌≤◌, length, map, IfOk, MatchOption};
ghost use Rattle.std.specs.List.{range_with_len};
ghost use Rattle.place_closures.specs.Pairs.{AreRestricted, CanAsk, pairs};
ghost use Rattle.power_objects.specs.SubsetRows.{closed_sets, set_cost, subset_cells};

use closed_sets::{ClosedListing, list_closed};
use fin_category::Cat;
use place_closures::{Elements, pair_passes};
use std::alloc::Global;
use topologies::Site;
use topos_model::{Bits, NoMemory, Row};

/// How many pairs there are at c.
pub(crate) fn pair_count<X: Elements>(cat: &Cat, x: &X, c: u32) -> u64
    requires object { c < cat.now.objects }
    requires asked { CanAsk cat.now (X.size x.now) (X.can_count x.now) (X.can_restrict x.now) }
    ensures pairs { result ≡ length (pairs cat.now (X.size x.now) (X.restriction x.now) c) }
    ensures few { result < 2 ^ 42 }
{
    cat.laws();
    let mut count = 0;
    for f in cat.arrows_into(c) {
        count += u64::from(x.count(cat.dom(*f)));
    }
    count
}

// The cells of one set of pairs at c.
fn cost_of_set<X: Elements>(cat: &Cat, x: &X, c: u32) -> u64
    requires object { c < cat.now.objects }
    requires asked { CanAsk cat.now (X.size x.now) (X.can_count x.now) (X.can_restrict x.now) }
    ensures cost { result ≡ set_cost cat.now (X.size x.now) (X.restriction x.now) c }
{
    1 + cat.arrows_into(c).len() as u64 + pair_count(cat, x, c)
}

// The closed sets of pairs at c, in order, where their cells are within the room. There is one at least, so that tables are made for pairs within the room alone.
fn sets_at<X: Elements>(
    alloc: Global,
    site: &Site,
    x: &X,
    c: u32,
    room: u64,
) -> Result<Option<Row<Bits>>, NoMemory>
    requires object { c < site.now.category.objects }
    requires restricts { AreRestricted site.now.category (X.size x.now) (X.restriction x.now) }
    requires asked { CanAsk site.now.category (X.size x.now) (X.can_count x.now) (X.can_restrict x.now) }
    requires few { room < 2 ^ 32 }
    ensures listed { IfOk result (λ listed. MatchOption listed
        (room < length (closed_sets site.now (X.size x.now) (X.restriction x.now) c) * set_cost site.now.category (X.size x.now) (X.restriction x.now) c)
        (λ sets. (sets ≡ closed_sets site.now (X.size x.now) (X.restriction x.now) c) × (length sets * set_cost site.now.category (X.size x.now) (X.restriction x.now) c ≤ room))) }
{
    let cat = site.cat();
    cat.laws();
    let _topology = site.top();
    let cost = cost_of_set(cat, x, c);
    if room < cost {
        return Ok(None);
    }
    let passes = pair_passes(alloc, site, x, c)?;
    match list_closed(alloc, &passes, room / cost)? {
        ClosedListing::Over => Ok(None),
        ClosedListing::All(sets) => Ok(Some(sets)),
    }
}

/// The closed sets of pairs at each object, where their cells together are within the room.
pub(crate) fn all_sets<X: Elements>(
    alloc: Global,
    site: &Site,
    x: &X,
    room: u64,
) -> Result<Option<Row<Row<Bits>>>, NoMemory>
    requires restricts { AreRestricted site.now.category (X.size x.now) (X.restriction x.now) }
    requires asked { CanAsk site.now.category (X.size x.now) (X.can_count x.now) (X.can_restrict x.now) }
    requires few { room < 2 ^ 32 }
    ensures listed { IfOk result (λ listed. MatchOption listed
        (room < subset_cells site.now (X.size x.now) (X.restriction x.now))
        (λ all. (all ≡ map (closed_sets site.now (X.size x.now) (X.restriction x.now)) (range_with_len 0 site.now.category.objects)) × (subset_cells site.now (X.size x.now) (X.restriction x.now) ≤ room))) }
{
    let cat = site.cat();
    let mut left = room;
    let mut all = Row::new(alloc);
    for c in 0..cat.objects() {
        match sets_at(alloc, site, x, c, left)? {
            None => return Ok(None),
            Some(sets) => {
                left -= sets.len() as u64 * cost_of_set(cat, x, c);
                all.push(sets)?;
            }
        }
    }
    Ok(Some(all))
}
