// The arrows into each object.
ghost use Rattle.std.specs.Prelude.{◌≡◌, ◌<◌, eqb, length, map, IfOk};
ghost use Rattle.topos_model.specs.categories.Category.{dom, into};
ghost use Rattle.topos_model.specs.topologies.LeastCovers.{least};
ghost use Rattle.topos_model.specs.statements.Cells.{objects_of};
ghost use Rattle.sieve_table.specs.Sieves.{sieve_arrows};
ghost use Rattle.site_stages.specs.Places.{places_among};

use fin_category::Cat;
use sieve_table::Sieve;
use std::alloc::Global;
use topologies::Site;
use topos_model::{NoMemory, Row};

/// The arrows into each object of a site, in order, as tables are read along them.
#[derive(Drop)]
pub struct Stages {
    /// The domains of the arrows into each object.
    pub sources: Row<Row<u32>>,
    /// The places of all arrows into each object.
    pub all: Row<Row<u32>>,
    /// The places of the arrows of its least cover.
    pub least: Row<Row<u32>>,
    /// Whether this is empty.
    pub empty: Row<bool>,
}

// The domains of the arrows into c.
fn sources_into(alloc: Global, cat: &Cat, c: u32) -> Result<Row<u32>, NoMemory>
    requires { c < cat.now.objects }
    ensures { IfOk result (λ row. row ≡ map (dom cat.now) (into cat.now c)) }
{
    let mut row = Row::new(alloc);
    for f in cat.arrows_into(c) {
        row.push(cat.dom(*f))?;
    }
    Ok(row)
}

// The places of the arrows of a sieve among those into c.
fn places_of(alloc: Global, cat: &Cat, c: u32, sieve: &Sieve) -> Result<Row<u32>, NoMemory>
    requires { c < cat.now.objects }
    ensures { IfOk result (λ row. row ≡ places_among (into cat.now c) (sieve_arrows sieve.now)) }
{
    cat.laws();
    let arrows = cat.arrows_into(c);
    let mut row = Row::new(alloc);
    for j in 0..arrows.len() as u32 {
        if sieve.has(arrows[j as usize]) {
            row.push(j)?;
        }
    }
    Ok(row)
}

fn all_sources(alloc: Global, cat: &Cat) -> Result<Row<Row<u32>>, NoMemory>
    ensures { IfOk result (λ rows. rows ≡ map (λ c. map (dom cat.now) (into cat.now c)) (objects_of cat.now)) }
{
    let mut rows = Row::new(alloc);
    for c in 0..cat.objects() {
        rows.push(sources_into(alloc, cat, c)?)?;
    }
    Ok(rows)
}

fn all_places(alloc: Global, cat: &Cat) -> Result<Row<Row<u32>>, NoMemory>
    ensures { IfOk result (λ rows. rows ≡ map (λ c. places_among (into cat.now c) (into cat.now c)) (objects_of cat.now)) }
{
    let mut rows = Row::new(alloc);
    for c in 0..cat.objects() {
        rows.push(places_of(alloc, cat, c, &Sieve::maximal(cat, c))?)?;
    }
    Ok(rows)
}

fn least_places(alloc: Global, site: &Site) -> Result<Row<Row<u32>>, NoMemory>
    ensures { IfOk result (λ rows. rows ≡ map (λ c. places_among (into site.now.category c) (least site.now c)) (objects_of site.now.category)) }
{
    let cat = site.cat();
    let mut rows = Row::new(alloc);
    for c in 0..cat.objects() {
        rows.push(places_of(alloc, cat, c, &site.top().least(cat, c))?)?;
    }
    Ok(rows)
}

// Which rows are empty.
fn empty_rows(alloc: Global, rows: &[Row<u32>]) -> Result<Row<bool>, NoMemory>
    ensures { IfOk result (λ empty. empty ≡ map (λ row. eqb (length row) 0) rows.now) }
{
    let mut empty = Row::new(alloc);
    for row in rows {
        empty.push(row.len() == 0)?;
    }
    Ok(empty)
}

impl Stages {
    ghost use Rattle.site_stages.specs.Stages.{AreStages};

    /// Those of a site.
    pub fn of(alloc: Global, site: &Site) -> Result<Stages, NoMemory>
        ensures { IfOk result (AreStages site.now) }
    {
        site.cat().laws();
        let least = least_places(alloc, site)?;
        let empty = empty_rows(alloc, least.as_slice())?;
        Ok(Stages {
            sources: all_sources(alloc, site.cat())?,
            all: all_places(alloc, site.cat())?,
            least,
            empty,
        })
    }
}
