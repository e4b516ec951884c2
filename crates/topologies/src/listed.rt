// Listed sieves, by objects.
ghost use Rattle.std.specs.Prelude.{◌≡◌, ℕ, ◌<◌, ◌++◌, [], map, IfOk, OnOk};
ghost use Rattle.std.specs.List.{range_with_len};
ghost use Rattle.finite_lists.specs.Members.{In};
ghost use Rattle.topos_model.specs.categories.Category.{into};
ghost use Rattle.topos_model.specs.statements.Form.{max_arrows};
ghost use Rattle.topos_model.specs.topologies.TopologyFaults.{IsListed};
ghost use Rattle.fin_category.specs.Masks.{all_added};
ghost use Rattle.fin_category.specs.ArrowSets.{arrows_in};
ghost use Rattle.topologies.specs.Candidates.{listed_site, kept_as, listed_at, listed_rows, common_arrows};

use fin_category::{ArrowMask, Cat};
use sieve_table::Sieve;
use std::alloc::Global;
use topos_model::{Family, NoMemory, Row};

// The arrows of a family as a set.
fn arrows_of(family: &Family) -> ArrowMask
    requires { (f : ℕ) → In family.now.arrows f → f < max_arrows }
    ensures { arrows_in result ≡ all_added [] family.now.arrows }
{
    let mut arrows = ArrowMask::empty();
    for f in family.arrows.as_slice() {
        arrows.insert(*f);
    }
    arrows
}

// Puts the listed sieves of c last.
fn push_listed(
    cat: &Cat,
    families: &[Family],
    c: u32,
    sieves: &mut Row<Sieve>,
) -> Result<(), NoMemory>
    requires { IsListed (listed_site cat.now families.now) }
    ensures { OnOk result (map kept_as sieves.new ≡ map kept_as sieves.old ++ listed_at cat.now families.now c) }
{
    cat.laws();
    for family in families {
        if family.at == c {
            sieves.push(Sieve::generated(cat, c, arrows_of(family)))?;
        }
    }
    Ok(())
}

// The listed sieves of all objects, in the order of the objects.
pub(crate) fn listed_sieves(
    alloc: Global,
    cat: &Cat,
    families: &[Family],
) -> Result<Row<Sieve>, NoMemory>
    requires { IsListed (listed_site cat.now families.now) }
    ensures { IfOk result (λ sieves. map kept_as sieves ≡ listed_rows cat.now families.now) }
{
    let mut sieves = Row::new(alloc);
    for c in 0..cat.objects() {
        push_listed(cat, families, c, &mut sieves)?;
    }
    Ok(sieves)
}

// The arrows into c that all its listed sieves have.
fn least_listed(cat: &Cat, sieves: &[Sieve], c: u32) -> ArrowMask
    requires { c < cat.now.objects }
    ensures { arrows_in result ≡ common_arrows c (into cat.now c) sieves.now }
{
    let mut arrows = cat.into(c);
    for sieve in sieves {
        if sieve.at() == c {
            arrows = arrows.meet(sieve.arrows());
        }
    }
    arrows
}

// The same for each object.
pub(crate) fn least_covers(
    alloc: Global,
    cat: &Cat,
    sieves: &[Sieve],
) -> Result<Row<ArrowMask>, NoMemory>
    ensures { IfOk result (λ row. map arrows_in row ≡ map (λ c. common_arrows c (into cat.now c) sieves.now) (range_with_len 0 cat.now.objects)) }
{
    let mut row = Row::new(alloc);
    for c in 0..cat.objects() {
        row.push(least_listed(cat, sieves, c))?;
    }
    Ok(row)
}
