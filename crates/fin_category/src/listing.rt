// What is known of a listed category before its composites are filled.
ghost use Rattle.std.specs.Prelude.{◌≡◌, ◌&&◌, ◌<◌, ◌≤◌, ◌+◌, None, length, eqb, IfOk, IfErr};
ghost use Rattle.topos_model.specs.categories.Listed.{all_ends, meet};
ghost use Rattle.topos_model.specs.categories.Filling.{domain_of, codomain_of};
ghost use Rattle.topos_model.specs.categories.CategoryFaults.{listing_fault, IsCategoryListing};
ghost use Rattle.topos_model.specs.statements.Form.{max_arrows};
ghost use Rattle.fin_category.specs.Faults.{IsListingFault};
ghost use Rattle.fin_category.specs.Listings.{HoldsComposites, IsListing};

use crate::CatFault;
use crate::ends::{all_ends, rows_into};
use indexmap::IndexMap;
use std::alloc::Global;
use topos_model::{RawCat, Row};

// The ends of all arrows, the arrows into each object, and the listed composites by their pairs (g, f).
#[derive(Drop)]
pub(crate) struct Listing {
    pub(crate) ends: Row<(u32, u32)>,
    pub(crate) rows: Row<Row<u32>>,
    pub(crate) composites: IndexMap<(u32, u32), u32>,
}

// Whether f ends where g begins, and h has the ends of g.f.
fn has_ends(ends: &[(u32, u32)], g: u32, f: u32, h: u32) -> bool
    requires second { g < length ends.now }
    requires first { f < length ends.now }
    requires composite { h < length ends.now }
    ensures { result ≡ (meet ends.now g f && eqb (domain_of ends.now h) (domain_of ends.now f) && eqb (codomain_of ends.now h) (codomain_of ends.now g)) }
{
    let second = ends[g as usize];
    let first = ends[f as usize];
    let both = ends[h as usize];
    first.1 == second.0 && both.0 == first.0 && both.1 == second.1
}

// The listed composites by their pairs, or the first fault among them.
fn listed_composites(
    alloc: Global,
    raw: &RawCat,
    ends: &[(u32, u32)],
) -> Result<IndexMap<(u32, u32), u32>, CatFault>
    requires ends { ends.now ≡ all_ends raw.now }
    requires within { IsCategoryListing raw.now }
    ensures composites { IfOk result (λ composites. HoldsComposites composites raw.now.listed) }
    ensures faultless { IfOk result (λ _. listing_fault raw.now ≡ None) }
    ensures fault { IfErr result (λ fault. IsListingFault raw.now fault) }
{
    let mut composites = IndexMap::new(alloc);
    for listed in raw.listed.as_slice() {
        let (g, f, h) = *listed;
        if !has_ends(ends, g, f, h) {
            return Err(CatFault::CompositeEnds { g, f, h });
        }
        match composites.insert((g, f), h) {
            Ok(None) => {}
            Ok(Some(_)) => return Err(CatFault::CompositeTwice { g, f }),
            Err(_) => return Err(CatFault::NoMemory),
        }
    }
    Ok(composites)
}

// What is known of a listed category, or the first fault of its listed composites.
pub(crate) fn tested_listing(alloc: Global, raw: &RawCat) -> Result<Listing, CatFault>
    requires few { raw.now.objects + length raw.now.ends ≤ max_arrows }
    requires within { IsCategoryListing raw.now }
    ensures listing { IfOk result (λ listing. IsListing raw.now listing) }
    ensures faultless { IfOk result (λ _. listing_fault raw.now ≡ None) }
    ensures fault { IfErr result (λ fault. IsListingFault raw.now fault) }
{
    let ends = all_ends(alloc, raw)?;
    let rows = rows_into(alloc, raw.objects, ends.as_slice())?;
    let composites = listed_composites(alloc, raw, ends.as_slice())?;
    Ok(Listing {
        ends,
        rows,
        composites,
    })
}
