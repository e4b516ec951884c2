// Categories, covers, presheaves, maps and functors as a text lists them, by numbers.
use crate::{Copied, NoMemory, Row};
use std::alloc::Global;

/// A category as it is listed: the number of objects, the domain and the codomain of each declared arrow, and the listed composites (g, f, g.f).
/// Arrows are numbered with the identities first, in the order of the objects.
#[derive(Drop)]
pub struct RawCat {
    pub objects: u32,
    pub ends: Row<(u32, u32)>,
    pub listed: Row<(u32, u32, u32)>,
}

/// A listed cover: an object, and arrows into it that generate the sieve.
#[derive(Drop)]
pub struct Family {
    pub at: u32,
    pub arrows: Row<u32>,
}

/// A listed restriction: an arrow, and pairs of an element at its codomain and its restriction.
#[derive(Drop)]
pub struct RawAlong {
    pub arrow: u32,
    pub entries: Row<(u32, u32)>,
}

/// A presheaf as it is listed: the number of elements at each object, and the listed restrictions.
#[derive(Drop)]
pub struct RawFunctor {
    pub sizes: Row<u32>,
    pub along: Row<RawAlong>,
}

/// A listed value of a map: at an object, from an element of the domain to one of the codomain.
#[derive(Clone, Copy)]
pub struct RawEntry {
    pub at: u32,
    pub from: u32,
    pub to: u32,
}

/// A map as it is listed.
#[derive(Drop)]
pub struct RawMap {
    pub entries: Row<RawEntry>,
}

/// A functor of categories as it is listed: where objects and arrows go.
#[derive(Drop)]
pub struct RawCatFunctor {
    pub at: Row<(u32, u32)>,
    pub along: Row<(u32, u32)>,
}

impl Copied for RawCat {
    fn copy(&self, alloc: Global) -> Result<RawCat, NoMemory> {
        let ends = self.ends.copy(alloc)?;
        let listed = self.listed.copy(alloc)?;
        Ok(RawCat {
            objects: self.objects,
            ends,
            listed,
        })
    }
}

impl Copied for Family {
    fn copy(&self, alloc: Global) -> Result<Family, NoMemory> {
        let arrows = self.arrows.copy(alloc)?;
        Ok(Family {
            at: self.at,
            arrows,
        })
    }
}

impl Copied for RawAlong {
    fn copy(&self, alloc: Global) -> Result<RawAlong, NoMemory> {
        let entries = self.entries.copy(alloc)?;
        Ok(RawAlong {
            arrow: self.arrow,
            entries,
        })
    }
}

impl Copied for RawFunctor {
    fn copy(&self, alloc: Global) -> Result<RawFunctor, NoMemory> {
        let sizes = self.sizes.copy(alloc)?;
        let along = self.along.copy(alloc)?;
        Ok(RawFunctor { sizes, along })
    }
}

impl Copied for RawEntry {
    fn copy(&self, _alloc: Global) -> Result<RawEntry, NoMemory> {
        Ok(*self)
    }
}

impl Copied for RawMap {
    fn copy(&self, alloc: Global) -> Result<RawMap, NoMemory> {
        let entries = self.entries.copy(alloc)?;
        Ok(RawMap { entries })
    }
}

impl Copied for RawCatFunctor {
    fn copy(&self, alloc: Global) -> Result<RawCatFunctor, NoMemory> {
        let at = self.at.copy(alloc)?;
        let along = self.along.copy(alloc)?;
        Ok(RawCatFunctor { at, along })
    }
}
