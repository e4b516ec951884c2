// What the statements so far have declared.
ghost use Rattle.std.specs.Prelude.{◌≡◌, ◌+◌, ◌^◌, ◌<◌, length, IfOk, OnOk, OnErr};
ghost use Rattle.topos_model.specs.Laws.{IsFunctor};
ghost use Rattle.topos_model.specs.categories.Category.{Category};
ghost use Rattle.formula_answers.specs.MapTables.{table_at};
ghost use Rattle.sealed_functors.specs.Rows.{IsOverExactly};
ghost use Rattle.sealed_world.specs.SealedWorlds.{world_cells, with_presheaf};
ghost use Rattle.topos_session.specs.Functors.{functor_at};
ghost use Rattle.topos_session.specs.Declarations.{functor_map_of, with_functor, AreLawful};

use crate::maps::DeclaredMaps;
use fin_category::Cat;
use functor_store::StoreFault;
use natural_maps::NatMap;
use presheaf_core::Functor;
use sealed_world::SealedWorld;
use std::alloc::Global;
use topos_model::{Copied, MapTable, NoMemory, Row, Ty};

/// A natural map between declared presheaves, which go by their numbers.
#[derive(Drop)]
pub struct FunctorMap {
    pub dom: u32,
    pub cod: u32,
    pub map: NatMap,
}

/// The presheaves that are declared so far over the site and the types that are counted, with the cells of both and of the maps that were listed; and the maps that
/// are declared.
#[derive(Drop)]
pub struct Declarations {
    pub world: SealedWorld,
    pub maps: DeclaredMaps,
}

impl Declarations {
    /// The category.
    pub fn cat(&self) -> &Cat
        ensures { result.now ≡ self.now.world.site.category }
    {
        self.world.site().cat()
    }

    /// The presheaf of a number.
    pub fn functor(&self, n: u32) -> &Functor
        requires { n < length self.now.world.functors }
        ensures { result.now ≡ functor_at self.now.world.functors n }
    {
        self.world.functor(n)
    }

    /// A copy of the map of a number, where it goes from a presheaf to a presheaf.
    pub fn functor_map(&self, alloc: Global, n: u32) -> Result<Option<FunctorMap>, NoMemory>
        requires lawful { (k : Category) × AreLawful k self.now }
        requires number { n < length self.now.maps }
        ensures { IfOk result (λ map. map ≡ functor_map_of (table_at self.now.maps n)) }
    {
        let table = &self.maps.tables()[n as usize];
        let (dom, cod) = match (&table.ends.dom, &table.ends.cod) {
            (Ty::Base(dom), Ty::Base(cod)) => (*dom, *cod),
            _ => return Ok(None),
        };
        let rows = table.rows.copy(alloc)?;
        let map = NatMap::from_rows(self.cat(), self.functor(dom), self.functor(cod), rows);
        Ok(Some(FunctorMap { dom, cod, map }))
    }

    /// Declares a presheaf, and maps between it and those before it. `Over` says that the cells of the presheaf and those so far exceed the budget. After a fault nothing is declared.
    pub fn declare(
        &mut self,
        alloc: Global,
        functor: Functor,
        maps: Row<MapTable>,
    ) -> Result<(), StoreFault>
        requires functor { IsFunctor self.old.world.site.category functor }
        requires few { length self.old.world.functors < 2 ^ 32 }
        ensures ok { OnOk result (self.new ≡ with_functor self.old functor maps) }
        ensures err { OnErr result (self.new ≡ self.old) }
        ensures over { IsOverExactly result (self.old.world.budget < world_cells (with_presheaf self.old.world functor)) }
    {
        let declared = self.maps.len();
        self.maps.append(alloc, maps)?;
        if let Err(fault) = self.world.declare(alloc, functor) {
            self.maps.truncate(declared);
            return Err(fault);
        }
        Ok(())
    }
}
