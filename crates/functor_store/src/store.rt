// The store: what is sealed, and what is being built.
ghost use Rattle.std.specs.Prelude.{◌≡◌, ℕ, ◌+◌, ◌^◌, ◌<◌, ◌≤◌, [], ◌∷◌, length, get_or, MatchOption, None, Some, IfOk, OnOk, OnErr};
ghost use Rattle.functor_store.specs.Store.{into, cells, bare, with_row, with_restrictions, sealed_with, functor_at, size_at, element_at, restrictions_at, restriction_along, IsDistinct, IsFreeKey, IsNext, IsFirstOpen, IsWhole, IfBuilding, IsOverWhere};

use crate::numbers::{append_row, fill, filled, start_of};
use crate::tables::{Tables, arrow_tables};
use crate::{Over, StoreFault};
use indexmap::IndexMap;
use row_arena::RowArena;
use std::alloc::Global;
use std::marker::Model;
use std::mem;
use topos_model::{NoMemory, Row, Ty};

/// The place of a sealed functor in the list of sealed functors, from 0.
pub type FunctorId = usize;

/// The number of a functor's first element among all elements, and for each object where its elements end.
#[derive(Drop)]
struct Part {
    base: u32,
    ends: Vec<u32>,
}

/// Functors that are sealed under distinct types, and the one that is being built. The rows of all elements stand behind one another, and so do their
/// restrictions; an element has one number among both.
#[derive(Drop)]
pub struct FunctorStore {
    objects: u32,
    ends: Row<(u32, u32)>,
    tables: Tables,
    budget: u64,
    charges: u64,
    sealed_cells: u64,
    cells: u64,
    parts: IndexMap<Ty, Part>,
    /// The type of the functor that is being built.
    key: Option<Ty>,
    /// The number of its first element.
    base: u32,
    /// The object of its last element, before which `open_ends` is whole.
    open: u32,
    open_ends: Vec<u32>,
    rows: RowArena,
    restrictions: RowArena,
    alloc: Global,
}

impl Model for FunctorStore {
    ghost use Rattle.functor_store.specs.Store.{Store};

    ghost Value = { Store };

    ghost use Rattle.topos_model.specs.contracts.ty.Ty as ty;
    ghost use Rattle.std.specs.Coded.{codes};

    ghost coded = { Prim.hlevel (codes, ty.the_row.coded) };

    ghost use Rattle.functor_store.specs.Fields.{view as seen, IsStore};

    ghost view = { seen };

    ghost invariant = { IsStore };
}

impl FunctorStore {
    /// A store with no functor, over so many objects, with the domain and the codomain of each arrow in arrow order, identities included.
    pub fn new(
        alloc: Global,
        objects: u32,
        ends: Row<(u32, u32)>,
        budget: u64,
    ) -> Result<FunctorStore, NoMemory>
        requires arrows { length ends < 2 ^ 32 }
        requires ends_in { (f : ℕ) → f < length ends → (get_or ends f (0, 0)).1 < objects }
        requires budget { budget ≤ 64_000_000 }
        ensures value { IfOk result (λ store. store ≡ record { objects = objects; ends = ends; budget = budget; charges = 0; sealed = []; building = None }) }
    {
        let tables = arrow_tables(alloc, objects, ends.as_slice())?;
        Ok(FunctorStore {
            objects,
            ends,
            tables,
            budget,
            charges: 0,
            sealed_cells: 0,
            cells: 0,
            parts: IndexMap::new(alloc),
            key: None,
            base: 0,
            open: 0,
            open_ends: Vec::new(alloc),
            rows: RowArena::new(alloc),
            restrictions: RowArena::new(alloc),
            alloc,
        })
    }

    /// The cells of all elements held, those of a build that is going on included, and of all charges.
    pub fn cells(&self) -> u64
        ensures cells { result ≡ cells self.now }
    {
        self.cells
    }

    /// How many cells more the budget allows.
    pub fn room(&self) -> u64
        ensures room { result + cells self.now ≡ self.now.budget }
        ensures bounded { self.now.budget ≤ 64_000_000 }
    {
        self.budget - self.cells
    }

    /// Counts cells that no functor holds, or answers that they exceed the budget.
    pub fn charge(&mut self, more: u64) -> Result<(), Over>
        requires idle { self.old.building ≡ None }
        ensures ok { OnOk result ((self.new ≡ record self.old { charges = self.old.charges + more }) × (cells self.old + more ≤ self.old.budget)) }
        ensures over { OnErr result ((self.new ≡ self.old) × (self.old.budget < cells self.old + more)) }
    {
        if self.budget - self.cells < more {
            return Err(Over);
        }
        self.charges += more;
        self.sealed_cells += more;
        self.cells += more;
        Ok(())
    }

    /// The functor that is sealed under the type, where there is one. No two functors are sealed under one type.
    pub fn find(&self, key: &Ty) -> Option<FunctorId>
        ensures distinct { IsDistinct self.now.sealed }
        ensures place { MatchOption result (IsFreeKey self.now.sealed key.now) (λ id. (id < length self.now.sealed) × ((functor_at self.now.sealed id).key ≡ key.now)) }
    {
        self.parts.get_index_of(key)
    }

    /// The number of elements at c.
    pub fn count(&self, id: FunctorId, c: u32) -> u32
        requires sealed { id < length self.now.sealed }
        requires object { c < self.now.objects }
        ensures elements { result ≡ size_at (functor_at self.now.sealed id) c }
        ensures whole { IsWhole (functor_at self.now.sealed id) }
    {
        let part = &self.parts[id];
        let object = c as usize;
        part.ends[object] - start_of(part.base, &part.ends, object)
    }

    /// The row that was pushed for the element k at c.
    pub fn element(&self, id: FunctorId, c: u32, k: u32) -> &[u32]
        requires sealed { id < length self.now.sealed }
        requires object { c < self.now.objects }
        requires element { k < size_at (functor_at self.now.sealed id) c }
        ensures row { result.now ≡ element_at (functor_at self.now.sealed id) c k }
    {
        let part = &self.parts[id];
        self.rows
            .row(start_of(part.base, &part.ends, c as usize) + k)
    }

    /// The numbers that were pushed for the element k at c, one for each arrow into c, in arrow order: its restrictions.
    pub fn restrictions(&self, id: FunctorId, c: u32, k: u32) -> &[u32]
        requires sealed { id < length self.now.sealed }
        requires object { c < self.now.objects }
        requires element { k < size_at (functor_at self.now.sealed id) c }
        ensures numbers { result.now ≡ restrictions_at (functor_at self.now.sealed id) c k }
        ensures arrows { length result.now ≡ into self.now.ends c }
    {
        let part = &self.parts[id];
        self.restrictions
            .row(start_of(part.base, &part.ends, c as usize) + k)
    }

    /// The number that was pushed at the arrow f for the element k at the codomain of f.
    pub fn restrict(&self, id: FunctorId, f: u32, k: u32) -> u32
        requires sealed { id < length self.now.sealed }
        requires arrow { f < length self.now.ends }
        requires element { k < size_at (functor_at self.now.sealed id) ((get_or self.now.ends f (0, 0)).1) }
        ensures number { result ≡ restriction_along self.now.ends (functor_at self.now.sealed id) f k }
    {
        let arrow = f as usize;
        let (_, c) = *self.ends.get(arrow);
        self.restrictions(id, c, k)[*self.tables.places.get(arrow) as usize]
    }

    /// Begins the functor of a type that is not there. Where memory is short the store is as before.
    pub fn begin(&mut self, key: Ty) -> Result<(), NoMemory>
        requires idle { self.old.building ≡ None }
        requires free { IsFreeKey self.old.sealed key }
        ensures ok { OnOk result (self.new ≡ record self.old { building = Some (bare key self.old.objects) }) }
        ensures err { OnErr result (self.new ≡ self.old) }
    {
        let ends = filled(self.alloc, self.objects as usize, self.base)?;
        self.parts.reserve(1)?;
        self.open = 0;
        self.open_ends = ends;
        self.key = Some(key);
        Ok(())
    }

    /// Puts an element at c, after all that came before, with the numbers of its entries. `Over` says that the cells with this element, which are one, one for
    /// each arrow into c and one for each entry, exceed the budget. After a fault the store is as before, and the build goes on.
    pub fn push_element(&mut self, c: u32, entries: &[u32]) -> Result<(), StoreFault>
        requires object { c < self.old.objects }
        requires next { IfBuilding self.old.building (λ f. IsNext f c) }
        ensures ok { OnOk result (self.new ≡ record self.old { building = with_row self.old.building c entries.now }) }
        ensures err { OnErr result (self.new ≡ self.old) }
        ensures over { IsOverWhere result (self.old.budget < cells self.old + 1 + into self.old.ends c + length entries.now) }
    {
        let object = c as usize;
        let need = 1 + u64::from(self.tables.into[object]) + entries.len() as u64;
        if self.budget - self.cells < need {
            return Err(StoreFault::Over);
        }
        let place = append_row(&mut self.rows, entries)?;
        fill(&mut self.open_ends, self.open as usize, object, place);
        self.open = c;
        self.cells += need;
        Ok(())
    }

    /// Gives the element k at c, which is the first that has none, its restrictions along the arrows into c, in arrow order. Where memory is short the store is
    /// as before, and the build goes on.
    pub fn push_restrictions(&mut self, c: u32, k: u32, row: &[u32]) -> Result<(), NoMemory>
        requires object { c < self.old.objects }
        requires first { IfBuilding self.old.building (λ f. IsFirstOpen f c k) }
        requires arrows { length row.now ≡ into self.old.ends c }
        ensures ok { OnOk result (self.new ≡ record self.old { building = with_restrictions self.old.building c row.now }) }
        ensures err { OnErr result (self.new ≡ self.old) }
    {
        append_row(&mut self.restrictions, row)?;
        Ok(())
    }

    /// Seals the functor that was built, all of whose elements have their restrictions, and gives its place. It takes no memory, and cannot fail.
    pub fn seal(&mut self) -> FunctorId
        requires whole { IfBuilding self.old.building IsWhole }
        ensures sealed { self.new ≡ record self.old { sealed = sealed_with self.old.sealed self.old.building; building = None } }
        ensures place { result ≡ length self.old.sealed }
    {
        let id = self.parts.len();
        let end = self.rows.rows() as u32;
        let mut ends = mem::replace(&mut self.open_ends, Vec::new(self.alloc));
        fill(&mut ends, self.open as usize, self.objects as usize, end);
        let base = mem::replace(&mut self.base, end);
        match self.key.take() {
            Some(key) => {
                self.parts.insert(key, Part { base, ends }).unwrap();
            }
            None => unreachable!(),
        }
        self.sealed_cells = self.cells;
        id
    }

    /// Gives up the functor that is being built, with all its elements. It takes no memory, and cannot fail.
    pub fn abandon(&mut self)
        requires building { IfBuilding self.old.building (λ _. Unit {0}) }
        ensures given_up { self.new ≡ record self.old { building = None } }
    {
        self.key = None;
        self.rows.cut(self.base as usize);
        self.restrictions.cut(self.base as usize);
        self.cells = self.sealed_cells;
    }
}
