// Whether listed data can be checked.
ghost use Rattle.std.specs.Prelude.{◌≡◌, ◌↔◌, ◌≤◌, ◌+◌, ◌&&◌, true, length, leb, ltb};
ghost use Rattle.std.specs.List.{list_all};
ghost use Rattle.topos_model.specs.categories.CategoryFaults.{IsCategoryListing};
ghost use Rattle.topos_model.specs.statements.Form.{is_listed_composite, is_category_listing, max_objects, max_arrows};

use crate::{MAX_ARROWS, MAX_OBJECTS};
use topos_model::RawCat;

// Whether there are no more objects and arrows than a category may have.
fn are_few(raw: &RawCat) -> bool
    ensures { result ≡ (leb raw.now.objects max_objects && leb (raw.now.objects + length raw.now.ends) max_arrows) }
{
    raw.objects <= MAX_OBJECTS && raw.ends.len() <= (MAX_ARROWS - raw.objects) as usize
}

// Whether the declared arrows have objects as their ends.
fn are_objects(objects: u32, ends: &[(u32, u32)]) -> bool
    ensures { result ≡ list_all (λ e. ltb e.0 objects && ltb e.1 objects) ends.now }
{
    ends.iter().all(|e| e.0 < objects && e.1 < objects)
}

// Whether each listed composite is one of declared arrows, and an arrow.
fn are_composites(objects: u32, arrows: usize, listed: &[(u32, u32, u32)]) -> bool
    ensures { result ≡ list_all (is_listed_composite objects arrows) listed.now }
{
    listed.iter().all(|e| {
        e.0 >= objects
            && (e.0 as usize) < arrows
            && e.1 >= objects
            && (e.1 as usize) < arrows
            && (e.2 as usize) < arrows
    })
}

// The three tests, one after another.
fn passes(raw: &RawCat) -> bool
    ensures { result ≡ is_category_listing raw.now }
{
    if !are_few(raw) || !are_objects(raw.objects, raw.ends.as_slice()) {
        return false;
    }
    let arrows = raw.objects as usize + raw.ends.len();
    are_composites(raw.objects, arrows, raw.listed.as_slice())
}

/// Whether listed data can be checked: there are no more objects and arrows than a category may have, the ends of declared arrows are
/// objects, and each listed composite is one of declared arrows, and an arrow.
pub fn is_listing(raw: &RawCat) -> bool
    ensures value { result ≡ is_category_listing raw.now }
    ensures within { (result ≡ true) ↔ ((raw.now.objects ≤ max_objects) × (raw.now.objects + length raw.now.ends ≤ max_arrows) × IsCategoryListing raw.now) }
{
    passes(raw)
}
