// The square table of all composites: those with identities, those that are listed, and the only arrow with the ends of any other.
ghost use Rattle.std.specs.Prelude.{◌≡◌, ◌<◌, ◌≤◌, ◌*◌, ℕ, true, None, length, filter, eqb, vec_len, IfOk, IfErr};
ghost use Rattle.finite_lists.specs.Members.{In};
ghost use Rattle.topos_model.specs.categories.Listed.{all_ends, meet};
ghost use Rattle.topos_model.specs.categories.Filling.{domain_of, codomain_of};
ghost use Rattle.topos_model.specs.categories.CategoryFaults.{missing_composite_fault, IsCategoryListing};
ghost use Rattle.topos_model.specs.statements.Form.{max_arrows};
ghost use Rattle.fin_category.specs.Faults.{IsMissingFault};
ghost use Rattle.fin_category.specs.Listings.{IsListing};
ghost use Rattle.fin_category.specs.Filling.{sole, determined_composite, first_undetermined, HoldsRow, IsSameButRow, HoldsComposites};

use crate::CatFault;
use crate::listing::Listing;
use std::alloc::Global;
use topos_model::{NoMemory, RawCat};

// The only arrow of a row with this domain.
fn sole_from(ends: &[(u32, u32)], row: &[u32], domain: u32) -> Option<u32>
    requires { (h : ℕ) → In row.now h → h < length ends.now }
    ensures { result ≡ sole (filter (λ h. eqb (domain_of ends.now h) domain) row.now) }
{
    let mut found = None;
    for h in row {
        if ends[*h as usize].0 == domain {
            if found.is_some() {
                return None;
            }
            found = Some(*h);
        }
    }
    found
}

// g.f, where it is determined.
fn composite(raw: &RawCat, listing: &Listing, g: u32, f: u32) -> Option<u32>
    requires listing { IsListing raw.now listing.now }
    requires second { g < length (all_ends raw.now) }
    requires first { f < length (all_ends raw.now) }
    requires objects { (codomain_of (all_ends raw.now) g) < raw.now.objects }
    ensures { result ≡ determined_composite raw.now g f }
{
    if g < raw.objects {
        return Some(f);
    }
    if f < raw.objects {
        return Some(g);
    }
    match listing.composites.get(&(g, f)) {
        Some(h) => Some(*h),
        None => {
            let ends = listing.ends.as_slice();
            let target = ends[g as usize].1;
            let row = listing.rows.get(target as usize);
            sole_from(ends, row.as_slice(), ends[f as usize].0)
        }
    }
}

// Writes the composites of g with the arrows into its domain, up to the first that is not determined.
fn fill_row(raw: &RawCat, listing: &Listing, square: &mut Vec<u32>, g: u32) -> Option<u32>
    requires listing { IsListing raw.now listing.now }
    requires within { IsCategoryListing raw.now }
    requires arrow { g < length (all_ends raw.now) }
    requires places { vec_len square.old ≡ length (all_ends raw.now) * length (all_ends raw.now) }
    ensures missing { result ≡ first_undetermined raw.now g }
    ensures row { result ≡ None → HoldsRow raw.now square.new.items g }
    ensures others { IsSameButRow (length (all_ends raw.now)) g square.old.items square.new.items }
{
    let ends = listing.ends.as_slice();
    let side = ends.len();
    let row = listing.rows.get(ends[g as usize].0 as usize);
    for f in row.as_slice() {
        match composite(raw, listing, g, *f) {
            Some(h) => square[g as usize * side + *f as usize] = h,
            None => return Some(*f),
        }
    }
    None
}

// So many zeros.
fn zeros(alloc: Global, count: usize) -> Result<Vec<u32>, NoMemory>
    ensures { IfOk result (λ zeros. length zeros.items ≡ count) }
{
    let mut zeros = Vec::new(alloc);
    zeros.resize(count, 0)?;
    Ok(zeros)
}

// The square table of all composites, or the first pair that meets and has none.
pub(crate) fn filled_square(
    alloc: Global,
    raw: &RawCat,
    listing: &Listing,
) -> Result<Vec<u32>, CatFault>
    requires few { length (all_ends raw.now) ≤ max_arrows }
    requires within { IsCategoryListing raw.now }
    requires listing { IsListing raw.now listing.now }
    ensures composites { IfOk result (λ square. HoldsComposites raw.now square.items) }
    ensures faultless { IfOk result (λ _. missing_composite_fault raw.now ≡ None) }
    ensures fault { IfErr result (λ fault. IsMissingFault raw.now fault) }
{
    let side = listing.ends.len();
    let mut square = zeros(alloc, side * side)?;
    for g in 0..side as u32 {
        if let Some(f) = fill_row(raw, listing, &mut square, g) {
            return Err(CatFault::CompositeMissing { g, f });
        }
    }
    Ok(square)
}
