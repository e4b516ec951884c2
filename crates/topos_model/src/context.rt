// Contexts of terms, and the maps that terms apply.
use crate::{Copied, NoMemory, Row, Ty};
use std::alloc::Global;

/// The types of a context's variables, the outermost first.
#[derive(Drop)]
pub struct Ctx {
    pub types: Row<Ty>,
}

/// The ends of a map.
#[derive(Drop)]
pub struct MapTy {
    pub dom: Ty,
    pub cod: Ty,
}

/// What a term may name: how many functors there are, and the ends of each map.
#[derive(Drop)]
pub struct Env {
    pub functors: u32,
    pub maps: Row<MapTy>,
}

/// A map's ends, and for each object and element of its domain the number of the element's image.
#[derive(Drop)]
pub struct MapTable {
    pub ends: MapTy,
    pub rows: Row<Row<u32>>,
}

/// The tables of all maps, by number.
#[derive(Drop)]
pub struct MapEnv {
    pub maps: Row<MapTable>,
}

impl Copied for Ctx {
    fn copy(&self, alloc: Global) -> Result<Ctx, NoMemory> {
        let types = self.types.copy(alloc)?;
        Ok(Ctx { types })
    }
}

impl Copied for MapTy {
    fn copy(&self, alloc: Global) -> Result<MapTy, NoMemory> {
        let dom = self.dom.copy(alloc)?;
        let cod = self.cod.copy(alloc)?;
        Ok(MapTy { dom, cod })
    }
}

impl Copied for Env {
    fn copy(&self, alloc: Global) -> Result<Env, NoMemory> {
        let maps = self.maps.copy(alloc)?;
        Ok(Env {
            functors: self.functors,
            maps,
        })
    }
}

impl Copied for MapTable {
    fn copy(&self, alloc: Global) -> Result<MapTable, NoMemory> {
        let ends = self.ends.copy(alloc)?;
        let rows = self.rows.copy(alloc)?;
        Ok(MapTable { ends, rows })
    }
}

impl Copied for MapEnv {
    fn copy(&self, alloc: Global) -> Result<MapEnv, NoMemory> {
        let maps = self.maps.copy(alloc)?;
        Ok(MapEnv { maps })
    }
}
