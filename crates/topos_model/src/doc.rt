// A document: what a text declares and the statements after its site.
use crate::{Copied, Family, Name, NoMemory, RawCat, Row, Stmt};
use std::alloc::Global;

/// A topology of a document: its name, where it has one, and either the dense covers or the listed ones.
#[derive(Drop)]
pub struct TopDecl {
    pub name: Option<Name>,
    pub dense: bool,
    pub covers: Row<Family>,
}

/// A functor's name, and the names of its elements at each object. A functor that a statement makes has none.
#[derive(Drop)]
pub struct FunctorName {
    pub name: Name,
    pub elements: Option<Row<Row<Name>>>,
}

/// A second category: its name, the names of its objects and declared arrows, and what is listed of it.
#[derive(Drop)]
pub struct CatDecl {
    pub name: Name,
    pub objects: Row<Name>,
    pub arrows: Row<Name>,
    pub cat: RawCat,
}

/// A presheaf on a second category, `cat` being that category's number.
#[derive(Drop)]
pub struct OnName {
    pub name: Name,
    pub cat: u32,
    pub elements: Option<Row<Row<Name>>>,
}

/// A document. Objects, declared arrows, functors and maps are numbered in the order of their declarations; the site takes `site_len` statements, and `stmts` are those after it.
/// Topology number 0 is in force where no other is named.
#[derive(Drop)]
pub struct Doc {
    pub version: u32,
    pub objects: Row<Name>,
    pub arrows: Row<Name>,
    pub cat: RawCat,
    pub tops: Row<TopDecl>,
    pub site_len: u32,
    pub functors: Row<FunctorName>,
    pub maps: Row<Name>,
    pub stmts: Row<Stmt>,
    pub cats: Row<CatDecl>,
    pub cat_functors: Row<Name>,
    pub on_functors: Row<OnName>,
    pub on_maps: Row<Name>,
}

impl Copied for TopDecl {
    fn copy(&self, alloc: Global) -> Result<TopDecl, NoMemory> {
        let name = self.name.copy(alloc)?;
        let covers = self.covers.copy(alloc)?;
        Ok(TopDecl {
            name,
            dense: self.dense,
            covers,
        })
    }
}

impl Copied for FunctorName {
    fn copy(&self, alloc: Global) -> Result<FunctorName, NoMemory> {
        let name = self.name.copy(alloc)?;
        let elements = self.elements.copy(alloc)?;
        Ok(FunctorName { name, elements })
    }
}

impl Copied for CatDecl {
    fn copy(&self, alloc: Global) -> Result<CatDecl, NoMemory> {
        let name = self.name.copy(alloc)?;
        let objects = self.objects.copy(alloc)?;
        let arrows = self.arrows.copy(alloc)?;
        let cat = self.cat.copy(alloc)?;
        Ok(CatDecl {
            name,
            objects,
            arrows,
            cat,
        })
    }
}

impl Copied for OnName {
    fn copy(&self, alloc: Global) -> Result<OnName, NoMemory> {
        let name = self.name.copy(alloc)?;
        let elements = self.elements.copy(alloc)?;
        Ok(OnName {
            name,
            cat: self.cat,
            elements,
        })
    }
}

impl Copied for Doc {
    fn copy(&self, alloc: Global) -> Result<Doc, NoMemory> {
        let objects = self.objects.copy(alloc)?;
        let arrows = self.arrows.copy(alloc)?;
        let cat = self.cat.copy(alloc)?;
        let tops = self.tops.copy(alloc)?;
        let functors = self.functors.copy(alloc)?;
        let maps = self.maps.copy(alloc)?;
        let stmts = self.stmts.copy(alloc)?;
        let cats = self.cats.copy(alloc)?;
        let cat_functors = self.cat_functors.copy(alloc)?;
        let on_functors = self.on_functors.copy(alloc)?;
        let on_maps = self.on_maps.copy(alloc)?;
        Ok(Doc {
            version: self.version,
            objects,
            arrows,
            cat,
            tops,
            site_len: self.site_len,
            functors,
            maps,
            stmts,
            cats,
            cat_functors,
            on_functors,
            on_maps,
        })
    }
}
