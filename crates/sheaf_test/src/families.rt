// The first matching family on a sieve that has not exactly one amalgamation.
ghost use Rattle.std.specs.Prelude.{◌≡◌, ◌<◌, ◌+◌, length, take, IfOk};
ghost use Rattle.std.specs.Option.{option_map};
ghost use Rattle.finite_lists.specs.Members.{In};
ghost use Rattle.finite_lists.specs.First.{first};
ghost use Rattle.topos_model.specs.categories.Category.{sieves};
ghost use Rattle.topos_model.specs.Laws.{IsFunctor, size};
ghost use Rattle.topos_model.specs.topologies.Sheaves.{matching_families};
ghost use Rattle.natural_search.specs.Domains.{ArePreimages};
ghost use Rattle.natural_search.specs.Rows.{AreFirst, AreRows};
ghost use Rattle.sheaf_test.specs.Amalgamations.{fault_with, fault_of, fault_on};
ghost use Rattle.sheaf_test.specs.declared.families.Failing.{Failing};

use crate::gluing::{Found, unless_one};
use crate::squares::{bounds, squares};
use fin_category::Cat;
use natural_search::{FirstRows, FoundRows, Preimages, first_rows};
use presheaf_core::Functor;
use std::alloc::Global;
use topos_model::{NoMemory, Row};

// A matching family that has not exactly one amalgamation, with none or the first two.
#[derive(Drop)]
pub(crate) struct Failing {
    pub family: Row<u32>,
    pub found: Found,
}

// The first matching families on a sieve, at most one more than there are elements at its object: so many have not one amalgamation each.
fn first_families(
    alloc: Global,
    cat: &Cat,
    x: &Functor,
    preimages: &Preimages,
    c: u32,
    arrows: &[u32],
) -> Result<FirstRows, NoMemory>
    requires functor { IsFunctor cat.now x.now }
    requires object { c < length x.now.sizes }
    requires sieve { In (sieves cat.now c) arrows.now }
    requires preimages { ArePreimages x.now.along preimages.now.masks.items }
    ensures { IfOk result (AreFirst (size x.now c + 1) (matching_families cat.now x.now arrows.now)) }
{
    cat.laws();
    let bounds = bounds(alloc, cat, x, arrows)?;
    let squares = squares(alloc, cat, c, arrows)?;
    first_rows(
        alloc,
        x.rows(),
        preimages,
        bounds.as_slice(),
        squares.as_slice(),
        x.size(c) as u64 + 1,
    )
}

// A copy of numbers.
fn row_of(alloc: Global, numbers: &[u32]) -> Result<Row<u32>, NoMemory>
    ensures { IfOk result (λ row. row ≡ numbers.now) }
{
    let mut row = Row::new(alloc);
    for number in numbers {
        row.push(*number)?;
    }
    Ok(row)
}

// The first of these families that has not exactly one amalgamation.
fn failing_row(
    alloc: Global,
    cat: &Cat,
    x: &Functor,
    c: u32,
    arrows: &[u32],
    families: &FoundRows,
) -> Result<Option<Failing>, NoMemory>
    requires functor { IsFunctor cat.now x.now }
    requires object { c < length x.now.sizes }
    requires sieve { In (sieves cat.now c) arrows.now }
    requires families { AreRows (take (size x.now c + 1) (matching_families cat.now x.now arrows.now)) families.now }
    ensures { IfOk result (λ failing. option_map (λ (f : Failing). fault_with c arrows.now f.family f.found) failing ≡ first (fault_of x.now c arrows.now) (take (size x.now c + 1) (matching_families cat.now x.now arrows.now))) }
{
    // Of which category the arrows are is a condition alone.
    let _ = cat;
    for i in 0..families.count {
        let family = families.row(i, arrows.len());
        if let Some(found) = unless_one(x, c, arrows, family) {
            let family = row_of(alloc, family)?;
            return Ok(Some(Failing { family, found }));
        }
    }
    Ok(None)
}

// The first matching family on a sieve that has not exactly one amalgamation.
pub(crate) fn failing_family(
    alloc: Global,
    cat: &Cat,
    x: &Functor,
    preimages: &Preimages,
    c: u32,
    arrows: &[u32],
) -> Result<Option<Failing>, NoMemory>
    requires functor { IsFunctor cat.now x.now }
    requires object { c < length x.now.sizes }
    requires sieve { In (sieves cat.now c) arrows.now }
    requires preimages { ArePreimages x.now.along preimages.now.masks.items }
    ensures { IfOk result (λ failing. option_map (λ (f : Failing). fault_with c arrows.now f.family f.found) failing ≡ fault_on cat.now x.now c arrows.now) }
{
    let first = first_families(alloc, cat, x, preimages, c, arrows)?;
    failing_row(alloc, cat, x, c, arrows, &first.rows)
}
