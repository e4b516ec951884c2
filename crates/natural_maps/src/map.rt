// Natural maps.
ghost use Rattle.std.specs.Prelude.{◌≡◌, ◌<◌, ℕ, [], None, length, IfOk, IfErr};
ghost use Rattle.topos_model.specs.Laws.{IsFunctor};
ghost use Rattle.topos_model.specs.presheaves.Maps.{apply, component, after, IsNatural};
ghost use Rattle.topos_model.specs.presheaves.MapFaults.{listed_map, map_fault, IsMapListing};

use crate::MapFault;
use crate::components::components;
use crate::images::entry_fault;
use crate::naturality::failing_square;
use fin_category::Cat;
use presheaf_core::{Functor, after_row};
use std::alloc::Global;
use std::marker::Model;
use topos_model::{Copied, NoMemory, RawMap, Row};

/// A natural map: at each object the number to which each element of the domain goes.
#[derive(Drop)]
pub struct NatMap {
    rows: Row<Row<u32>>,
}

impl Model for NatMap {
    ghost use Rattle.topos_model.specs.presheaves.Maps.{Components};

    ghost Value = { Components };

    ghost view = { λ map. map.rows };
}

impl NatMap {
    ghost use Rattle.natural_maps.specs.Faults.{IsFaultOf};

    /// The map that is listed, from p to q, or the first fault. First comes 55, at the first entry with a number that is no element's, left side first; then 53,
    /// at the first element without an entry, objects in order; and then 54, at the first (f, x), in lexicographic order, for which m(x.f) is other than m(x).f.
    /// Want of memory may come before 53 and 54.
    pub fn check(
        alloc: Global,
        cat: &Cat,
        p: &Functor,
        q: &Functor,
        raw: &RawMap,
    ) -> Result<NatMap, MapFault>
        requires domain { IsFunctor cat.now p.now }
        requires codomain { IsFunctor cat.now q.now }
        requires listing { IsMapListing cat.now raw.now }
        ensures map { IfOk result (λ map. map ≡ listed_map cat.now p.now raw.now) }
        ensures natural { IfOk result (λ map. IsNatural cat.now p.now q.now map) }
        ensures faultless { IfOk result (λ _. map_fault cat.now p.now q.now raw.now ≡ None) }
        ensures fault { IfErr result (λ fault. IsFaultOf cat.now p.now q.now raw.now fault) }
    {
        let entries = raw.entries.as_slice();
        entry_fault(p, q, entries)?;
        let rows = components(alloc, cat.objects(), p.sizes(), entries)?;
        match failing_square(cat, p, q, &rows) {
            Some((f, x)) => Err(MapFault::NotNatural { f, x }),
            None => Ok(NatMap { rows }),
        }
    }

    /// The map with these components, which are natural.
    pub fn from_rows(cat: &Cat, p: &Functor, q: &Functor, rows: Row<Row<u32>>) -> NatMap
        requires natural { IsNatural cat.now p.now q.now rows }
        ensures { result ≡ rows }
    {
        // That the components are natural is a condition alone.
        let _ = cat;
        let _ = p;
        let _ = q;
        NatMap { rows }
    }

    /// The components, at the objects in order.
    pub fn rows(&self) -> &[Row<u32>]
        ensures { result.now ≡ self.now }
    {
        self.rows.as_slice()
    }

    /// The components, given away.
    pub fn into_rows(self) -> Row<Row<u32>>
        ensures { result ≡ self }
    {
        self.rows
    }

    /// The component at the object c.
    pub fn row(&self, c: u32) -> &[u32]
        requires { c < length self.now }
        ensures { result.now ≡ component self.now c }
    {
        self.rows.get(c as usize).as_slice()
    }

    /// Where the map takes the element x at the object c.
    pub fn apply(&self, c: u32, x: u32) -> u32
        requires object { c < length self.now }
        requires element { x < length (component self.now c) }
        ensures { result ≡ apply self.now c x }
    {
        *self.rows.get(c as usize).get(x as usize)
    }

    /// First the map `first` and then this one.
    pub fn after(&self, alloc: Global, first: &NatMap) -> Result<NatMap, NoMemory>
        requires objects { length first.now ≡ length self.now }
        requires meet { (c x : ℕ) → c < length first.now → x < length (component first.now c) → apply first.now c x < length (component self.now c) }
        ensures { IfOk result (λ map. map ≡ after self.now first.now) }
    {
        let mut rows = Row::new(alloc);
        for c in 0..self.rows.len() {
            rows.push(after_row(
                alloc,
                self.rows.get(c).as_slice(),
                first.rows.get(c).as_slice(),
            )?)?;
        }
        Ok(NatMap { rows })
    }
}

impl Copied for NatMap {
    fn copy(&self, alloc: Global) -> Result<NatMap, NoMemory> {
        let rows = self.rows.copy(alloc)?;
        Ok(NatMap { rows })
    }
}
