// Sealing the truth values of a site in a store.
ghost use Rattle.std.specs.Prelude.{◌≡◌, ◌^◌, ◌<◌, ℕ, None, List, length, OnOk, OnErr, IfOk};
ghost use Rattle.topos_model.specs.declared.ty.Ty.TheVariants.{Omega as OmegaType};
ghost use Rattle.topos_model.specs.types.Types.{Presheaf};
ghost use Rattle.topos_model.specs.statements.Cells.{cells_of};
ghost use Rattle.functor_store.specs.Faithful.{IsFaithful};
ghost use Rattle.sealed_functors.specs.Rows.{rows_at};
ghost use Rattle.omega_object.specs.TruthValues.{closed_sieves};
ghost use Rattle.omega_object.specs.Tables.{IsOmegaOn, IsNeeded, IsOverWhereNew, ArePushed, AreSieveRows, sieve_cells};

use crate::Omega;
use crate::tables::omega_within;
use functor_store::{FunctorStore, StoreFault};
use sealed_functors::{ElementRows, seal_rows};
use sieve_table::Sieve;
use std::alloc::Global;
use topologies::Site;
use topos_model::{NoMemory, Row, Ty};

// Puts the restrictions of the closed sieve number k on c behind the others.
fn push_restrictions(
    site: &Site,
    values: &Omega,
    c: u32,
    k: u32,
    out: &mut Row<u32>,
) -> Result<(), NoMemory>
    requires values { IsOmegaOn site.now values.now }
    requires few { sieve_cells site.now < 2 ^ 32 }
    requires object { c < site.now.category.objects }
    requires number { k < length (closed_sieves site.now c) }
    ensures pushed { OnOk result (ArePushed site.now c k out.old out.new) }
{
    let cat = site.cat();
    cat.laws();
    let sieve = Sieve::new(c, values.sieve(c, k));
    for f in cat.arrows_into(c) {
        let pulled = sieve.pull(cat, *f);
        out.push(values.number(pulled.at(), pulled.arrows()))?;
    }
    Ok(())
}

// The closed sieves on c with all their restrictions.
fn sieve_rows(alloc: Global, site: &Site, values: &Omega, c: u32) -> Result<ElementRows, NoMemory>
    requires values { IsOmegaOn site.now values.now }
    requires few { sieve_cells site.now < 2 ^ 32 }
    requires object { c < site.now.category.objects }
    ensures rows { IfOk result (λ rows. AreSieveRows site.now c rows) }
{
    let count = values.count(c);
    let mut restrictions = Row::new(alloc);
    for k in 0..count {
        push_restrictions(site, values, c, k, &mut restrictions)?;
    }
    Ok(ElementRows {
        count,
        width: 0,
        arrows: site.cat().arrows_into(c).len() as u32,
        rows: Row::new(alloc),
        restrictions,
    })
}

// The same at each object.
fn all_sieve_rows(alloc: Global, site: &Site, values: &Omega) -> Result<Row<ElementRows>, NoMemory>
    requires values { IsOmegaOn site.now values.now }
    requires few { sieve_cells site.now < 2 ^ 32 }
    ensures objects { IfOk result (λ all. length all ≡ site.now.category.objects) }
    ensures rows { IfOk result (λ all. (c : ℕ) → c < site.now.category.objects → AreSieveRows site.now c (rows_at all c)) }
{
    let mut all = Row::new(alloc);
    for c in 0..site.cat().objects() {
        all.push(sieve_rows(alloc, site, values, c)?)?;
    }
    Ok(all)
}

impl Omega {
    /// The truth values of a site. Afterwards the type `Omega` is sealed in the store, with the closed sieves of each object in order. Where it was not, `Over` says
    /// that the cells of its elements and those of the store exceed the budget. After a fault the store is as before.
    pub fn need(alloc: Global, store: &mut FunctorStore, site: &Site) -> Result<Omega, StoreFault>
        requires idle { store.old.building ≡ None }
        requires faithful { (functors : List Presheaf) × IsFaithful site.now functors store.old }
        ensures values { IfOk result (λ values. IsOmegaOn site.now values) }
        ensures needed { OnOk result (IsNeeded OmegaType store.old store.new) }
        ensures faithful { (functors : List Presheaf) → IsFaithful site.now functors store.old → IsFaithful site.now functors store.new }
        ensures err { OnErr result (store.new ≡ store.old) }
        ensures over { (functors : List Presheaf) → IsOverWhereNew result OmegaType store.old (cells_of site.now functors OmegaType) }
    {
        let room = store.room();
        match store.find(&Ty::Omega) {
            Some(_) => match omega_within(alloc, site, store.cells())? {
                Some(values) => Ok(values),
                None => unreachable!(),
            },
            None => match omega_within(alloc, site, room)? {
                None => Err(StoreFault::Over),
                Some(values) => {
                    let rows = all_sieve_rows(alloc, site, &values)?;
                    match seal_rows(store, Ty::Omega, rows.as_slice()) {
                        Ok(_) => Ok(values),
                        Err(fault) => Err(fault),
                    }
                }
            },
        }
    }
}
