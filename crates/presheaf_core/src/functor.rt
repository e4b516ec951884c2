// Presheaves of finite sets that are checked.
ghost use Rattle.std.specs.Prelude.{◌≡◌, ◌<◌, ◌+◌, ◌*◌, ◌^◌, [], None, length, get_or, IfOk, IfErr};
ghost use Rattle.topos_model.specs.categories.Category.{into};
ghost use Rattle.topos_model.specs.Laws.{act, size, IsFunctor};
ghost use Rattle.topos_model.specs.categories.Filling.{filled_presheaf};
ghost use Rattle.topos_model.specs.presheaves.PresheafFaults.{presheaf_fault, IsPresheafListing};
ghost use Rattle.topos_model.specs.statements.Cells.{presheaf_cells};

use crate::FunctorFault;
use crate::functoriality::failing_instance;
use crate::rows::filled_rows;
use fin_category::Cat;
use std::alloc::Global;
use std::marker::Model;
use topos_model::{Copied, NoMemory, RawFunctor, Row};

/// A presheaf of finite sets: how many elements it has at each object, and for each arrow a row with the restriction of each element at its codomain.
#[derive(Drop)]
pub struct Functor {
    sizes: Row<u32>,
    along: Row<Row<u32>>,
}

impl Model for Functor {
    ghost use Rattle.topos_model.specs.types.Types.{Presheaf};

    ghost Value = { Presheaf };

    ghost view = { λ functor. record { sizes = functor.sizes; along = functor.along } };
}

impl Functor {
    ghost use Rattle.presheaf_core.specs.Faults.{IsFaultOf};

    /// The presheaf that is listed, or the first fault. A restriction along a declared arrow f that is left out is filled by x.f = (x.g).h, from the first pair
    /// (g, h), in lexicographic order, of declared arrows before f with g.h = f. At each declared arrow in turn comes 50 or 51, with the first element; then 52, at
    /// the first (g, f, x), in lexicographic order, for which (x.g).f is other than x.(g.f). Want of memory may come before any of these.
    pub fn check(alloc: Global, cat: &Cat, raw: &RawFunctor) -> Result<Functor, FunctorFault>
        requires { IsPresheafListing cat.now raw.now }
        ensures presheaf { IfOk result (λ functor. functor ≡ filled_presheaf cat.now raw.now) }
        ensures lawful { IfOk result (λ functor. IsFunctor cat.now functor) }
        ensures faultless { IfOk result (λ _. presheaf_fault cat.now raw.now ≡ None) }
        ensures fault { IfErr result (λ fault. IsFaultOf cat.now raw.now fault) }
    {
        let sizes = raw.sizes.copy(alloc)?;
        let along = filled_rows(alloc, cat, raw)?;
        let functor = Functor { sizes, along };
        match failing_instance(cat, &functor) {
            Some((g, f, x)) => Err(FunctorFault::NotFunctorial { g, f, x }),
            None => Ok(functor),
        }
    }

    /// The presheaf with these sizes and rows of restrictions, which make one.
    pub fn from_rows(cat: &Cat, sizes: Row<u32>, along: Row<Row<u32>>) -> Functor
        requires lawful { IsFunctor cat.now (record { sizes = sizes; along = along }) }
        ensures { result ≡ record { sizes = sizes; along = along } }
    {
        // That the rows obey the laws of a presheaf is a condition alone.
        let _ = cat;
        Functor { sizes, along }
    }

    /// How many elements there are at each object.
    pub fn sizes(&self) -> &[u32]
        ensures { result.now ≡ self.now.sizes }
    {
        self.sizes.as_slice()
    }

    /// How many elements there are at the object c.
    pub fn size(&self, c: u32) -> u32
        requires { c < length self.now.sizes }
        ensures { result ≡ size self.now c }
    {
        *self.sizes.get(c as usize)
    }

    /// x.f, the restriction along f of the element x at its codomain.
    pub fn restrict(&self, f: u32, x: u32) -> u32
        requires arrow { f < length self.now.along }
        requires element { x < length (get_or self.now.along f []) }
        ensures { result ≡ act self.now f x }
    {
        *self.along.get(f as usize).get(x as usize)
    }

    /// The restrictions along all arrows, in order.
    pub fn rows(&self) -> &[Row<u32>]
        ensures { result.now ≡ self.now.along }
    {
        self.along.as_slice()
    }

    /// The restrictions along f of the elements at its codomain, in order.
    pub fn row(&self, f: u32) -> &[u32]
        requires { f < length self.now.along }
        ensures { result.now ≡ get_or self.now.along f [] }
    {
        self.along.get(f as usize).as_slice()
    }

    // The cells of the elements at c.
    fn cells_at(&self, cat: &Cat, c: u32) -> u64
        requires object { c < cat.now.objects }
        requires objects { length self.now.sizes ≡ cat.now.objects }
        ensures value { result ≡ size self.now c * (1 + length (into cat.now c)) }
        ensures few { result < 2 ^ 42 }
    {
        let size = self.size(c);
        size as u64 * (1 + cat.arrows_into(c).len() as u64)
    }

    /// The cells of all elements: an element at c costs 1, and 1 more for each arrow into c.
    pub fn cells(&self, cat: &Cat) -> u64
        requires { length self.now.sizes ≡ cat.now.objects }
        ensures { result ≡ presheaf_cells cat.now self.now }
    {
        let mut cells = 0;
        for c in 0..cat.objects() {
            cells += self.cells_at(cat, c);
        }
        cells
    }
}

impl Copied for Functor {
    fn copy(&self, alloc: Global) -> Result<Functor, NoMemory> {
        let sizes = self.sizes.copy(alloc)?;
        let along = self.along.copy(alloc)?;
        Ok(Functor { sizes, along })
    }
}
