// The tables of a category, which hold all but associativity.
ghost use Rattle.std.specs.Prelude.{◌≡◌, ◌<◌, ◌≤◌, ◌+◌, ℕ, None, length, slice_index, IfOk, IfErr};
ghost use Rattle.topos_model.specs.categories.Category.{dom, cod, compose, into};
ghost use Rattle.topos_model.specs.Laws.{IsInto};
ghost use Rattle.topos_model.specs.categories.Filling.{filled_category};
ghost use Rattle.topos_model.specs.categories.CategoryFaults.{listing_fault, missing_composite_fault, IsCategoryListing};
ghost use Rattle.topos_model.specs.statements.Form.{max_objects, max_arrows};
ghost use Rattle.fin_category.specs.Faults.{IsFaultOf};

use crate::CatFault;
use crate::filling::filled_square;
use crate::listing::tested_listing;
use std::alloc::Global;
use std::marker::Model;
use topos_model::{Copied, NoMemory, RawCat, Row};

// The ends of each arrow, the composite g.f in row g and column f, and the arrows into each object.
#[derive(Drop)]
pub(crate) struct Tables {
    objects: u32,
    ends: Row<(u32, u32)>,
    composites: Vec<u32>,
    rows: Row<Row<u32>>,
}

impl Model for Tables {
    ghost use Rattle.topos_model.specs.categories.Category.{Category};
    ghost use Rattle.fin_category.specs.Tables.{category_of, AreTables};

    ghost Value = { Category };

    ghost view = { λ t. category_of t.objects t.ends t.composites.items };

    ghost invariant = { λ t. AreTables t.objects t.ends t.composites.items t.rows };
}

impl Tables {
    // The tables of the filled category, or the first fault before associativity.
    pub(crate) fn filled(alloc: Global, raw: &RawCat) -> Result<Tables, CatFault>
        requires objects { raw.now.objects ≤ max_objects }
        requires arrows { raw.now.objects + length raw.now.ends ≤ max_arrows }
        requires within { IsCategoryListing raw.now }
        ensures category { IfOk result (λ tables. tables ≡ filled_category raw.now) }
        ensures listing { IfOk result (λ _. listing_fault raw.now ≡ None) }
        ensures missing { IfOk result (λ _. missing_composite_fault raw.now ≡ None) }
        ensures fault { IfErr result (λ fault. IsFaultOf raw.now fault) }
    {
        let listing = tested_listing(alloc, raw)?;
        let composites = filled_square(alloc, raw, &listing)?;
        Ok(Tables {
            objects: raw.objects,
            ends: listing.ends,
            composites,
            rows: listing.rows,
        })
    }

    pub(crate) fn objects(&self) -> u32
        ensures count { result ≡ self.now.objects }
        ensures few { result ≤ max_objects }
    {
        self.objects
    }

    pub(crate) fn arrows(&self) -> u32
        ensures count { result ≡ length self.now.ends }
        ensures few { result ≤ max_arrows }
    {
        self.ends.len() as u32
    }

    pub(crate) fn dom(&self, f: u32) -> u32
        requires { f < length self.now.ends }
        ensures value { result ≡ dom self.now f }
        ensures object { result < self.now.objects }
    {
        self.ends.get(f as usize).0
    }

    pub(crate) fn cod(&self, f: u32) -> u32
        requires { f < length self.now.ends }
        ensures value { result ≡ cod self.now f }
        ensures object { result < self.now.objects }
    {
        self.ends.get(f as usize).1
    }

    pub(crate) fn compose(&self, g: u32, f: u32) -> u32
        requires second { g < length self.now.ends }
        requires first { f < length self.now.ends }
        requires meet { cod self.now f ≡ dom self.now g }
        ensures value { result ≡ compose self.now g f }
        ensures arrow { result < length self.now.ends }
        ensures dom { dom self.now result ≡ dom self.now f }
        ensures cod { cod self.now result ≡ cod self.now g }
    {
        self.composites[g as usize * self.ends.len() + f as usize]
    }

    pub(crate) fn arrows_into(&self, c: u32) -> &[u32]
        requires { c < self.now.objects }
        ensures value { result.now ≡ into self.now c }
        ensures few { length result.now ≤ max_arrows }
        ensures each { (i : ℕ) → i < length result.now → IsInto self.now c (slice_index result.now i) }
    {
        self.rows.get(c as usize).as_slice()
    }
}

impl Copied for Tables {
    fn copy(&self, alloc: Global) -> Result<Tables, NoMemory> {
        let ends = self.ends.copy(alloc)?;
        let composites = Vec::from_slice(alloc, self.composites.as_slice())?;
        let rows = self.rows.copy(alloc)?;
        Ok(Tables {
            objects: self.objects,
            ends,
            composites,
            rows,
        })
    }
}
