// Finite categories that are checked.
ghost use Rattle.std.specs.Prelude.{◌≡◌, ◌<◌, ◌≤◌, ◌+◌, ℕ, None, length, slice_index, IfOk, IfErr};
ghost use Rattle.topos_model.specs.categories.Category.{dom, cod, compose, into};
ghost use Rattle.topos_model.specs.Laws.{IsInto, IsCategory};
ghost use Rattle.topos_model.specs.categories.Filling.{filled_category};
ghost use Rattle.topos_model.specs.categories.CategoryFaults.{category_fault, IsCategoryListing};
ghost use Rattle.topos_model.specs.statements.Form.{max_objects, max_arrows};

use crate::CatFault;
use crate::associativity::failing_triple;
use crate::tables::Tables;
use std::alloc::Global;
use std::marker::Model;
use topos_model::{Copied, NoMemory, RawCat};

/// How many objects a category may have.
pub const MAX_OBJECTS: u32 = 128;

/// How many arrows a category may have, the identities among them.
pub const MAX_ARROWS: u32 = 512;

/// A finite category. Objects are numbered from 0, and so are arrows, the identities first in the order of the objects.
#[derive(Drop)]
pub struct Cat {
    tables: Tables,
}

impl Model for Cat {
    ghost use Rattle.topos_model.specs.categories.Category.{Category};
    ghost use Rattle.topos_model.specs.Laws.{IsCategory};

    ghost Value = { Category };

    ghost view = { λ k. k.tables };

    ghost invariant = { λ k. IsCategory k.tables };
}

impl Cat {
    ghost use Rattle.fin_category.specs.Faults.{IsFaultOf};

    /// The category that is listed, each composite that is left out being the only arrow with its ends, identities counted; or the first fault.
    /// At each listed composite in turn come 32 and then 31; after them 30, at the first pair (g, f) that meets and has no composite; and then 33, at the
    /// first triple (h, g, f) for which h.(g.f) is other than (h.g).f. Pairs and triples stand in lexicographic order. Want of memory may come before any of these.
    pub fn check(alloc: Global, raw: &RawCat) -> Result<Cat, CatFault>
        requires objects { raw.now.objects ≤ max_objects }
        requires arrows { raw.now.objects + length raw.now.ends ≤ max_arrows }
        requires within { IsCategoryListing raw.now }
        ensures category { IfOk result (λ k. k ≡ filled_category raw.now) }
        ensures faultless { IfOk result (λ _. category_fault raw.now ≡ None) }
        ensures fault { IfErr result (λ fault. IsFaultOf raw.now fault) }
    {
        let tables = Tables::filled(alloc, raw)?;
        match failing_triple(&tables) {
            Some((h, g, f)) => Err(CatFault::NotAssociative { h, g, f }),
            None => Ok(Cat { tables }),
        }
    }

    /// How many objects there are.
    pub fn objects(&self) -> u32
        ensures count { result ≡ self.now.objects }
        ensures few { result ≤ max_objects }
        ensures lawful { IsCategory self.now }
    {
        self.tables.objects()
    }

    /// How many arrows there are, the identities among them.
    pub fn arrows(&self) -> u32
        ensures count { result ≡ length self.now.ends }
        ensures few { result ≤ max_arrows }
        ensures lawful { IsCategory self.now }
    {
        self.tables.arrows()
    }

    /// Gives a proof the laws of the category, and that it has no more arrows than a set of arrows may hold. It does nothing when it runs.
    pub fn laws(&self)
        ensures few { length self.now.ends ≤ max_arrows }
        ensures lawful { IsCategory self.now }
    {
        let _count = self.tables.arrows();
    }

    /// The domain of f.
    pub fn dom(&self, f: u32) -> u32
        requires { f < length self.now.ends }
        ensures value { result ≡ dom self.now f }
        ensures object { result < self.now.objects }
    {
        self.tables.dom(f)
    }

    /// The codomain of f.
    pub fn cod(&self, f: u32) -> u32
        requires { f < length self.now.ends }
        ensures value { result ≡ cod self.now f }
        ensures object { result < self.now.objects }
    {
        self.tables.cod(f)
    }

    /// The identity of the object c.
    pub fn ident(&self, c: u32) -> u32
        requires { c < self.now.objects }
        ensures value { result ≡ c }
        ensures into { IsInto self.now c result }
        ensures dom { dom self.now result ≡ c }
    {
        // That c is an arrow is a law of the category.
        let _ = &self.tables;
        c
    }

    /// g.f, first f and then g.
    pub fn compose(&self, g: u32, f: u32) -> u32
        requires second { g < length self.now.ends }
        requires first { f < length self.now.ends }
        requires meet { cod self.now f ≡ dom self.now g }
        ensures value { result ≡ compose self.now g f }
        ensures arrow { result < length self.now.ends }
        ensures dom { dom self.now result ≡ dom self.now f }
        ensures cod { cod self.now result ≡ cod self.now g }
    {
        self.tables.compose(g, f)
    }

    /// The arrows into c, in order.
    pub fn arrows_into(&self, c: u32) -> &[u32]
        requires { c < self.now.objects }
        ensures value { result.now ≡ into self.now c }
        ensures few { length result.now ≤ max_arrows }
        ensures each { (i : ℕ) → i < length result.now → IsInto self.now c (slice_index result.now i) }
    {
        self.tables.arrows_into(c)
    }
}

impl Copied for Cat {
    fn copy(&self, alloc: Global) -> Result<Cat, NoMemory> {
        let tables = self.tables.copy(alloc)?;
        Ok(Cat { tables })
    }
}
