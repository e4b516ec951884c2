// The list of all natural maps between two presheaves.
ghost use Rattle.std.specs.Prelude.{◌≡◌, ◌≤◌, ◌<◌, ◌^◌, map, length, sum, IfOk, IfErr};
ghost use Rattle.topos_model.specs.Laws.{IsFunctor};
ghost use Rattle.topos_model.specs.presheaves.NaturalMaps.{maps};
ghost use Rattle.topos_model.specs.statements.Cells.{hom_cells};
ghost use Rattle.topos_model.specs.statements.Answers.{map_shape};
ghost use Rattle.natural_maps.specs.Room.{max_room};
ghost use Rattle.topos_session.specs.Declarations.{declared_between};
ghost use Rattle.topos_session.specs.Constructions.{between};
ghost use Rattle.topos_session.specs.Homs.{IsHom, IsUnlisted};

use crate::Stop;
use crate::shapes::map_shape;
use fin_category::Cat;
use natural_maps::{Listing, NatMap, list_maps};
use presheaf_core::Functor;
use std::alloc::Global;
use topos_model::{MapShape, MapTy, NoMemory, Row, Ty};

/// All natural maps between two presheaves as they are shown, and their cells.
#[derive(Drop)]
pub struct Hom {
    pub shapes: Row<MapShape>,
    pub cells: u64,
}

// How many elements there are at all objects.
fn elements(sizes: &[u32]) -> u64
    requires { length sizes.now ≤ 128 }
    ensures elements { result ≡ sum sizes.now }
    ensures few { result < 2 ^ 40 }
{
    let mut elements = 0;
    for size in sizes {
        elements += *size as u64;
    }
    elements
}

// The maps between presheaves of these numbers as they are shown.
fn shapes(alloc: Global, ends: (u32, u32), maps: &[NatMap]) -> Result<Row<MapShape>, NoMemory>
    ensures { IfOk result (λ shapes. shapes ≡ map (λ m. map_shape (declared_between (between ends.0 ends.1 m))) maps.now) }
{
    let mut shapes = Row::new(alloc);
    for map in maps {
        let ends = MapTy {
            dom: Ty::Base(ends.0),
            cod: Ty::Base(ends.1),
        };
        shapes.push(map_shape(alloc, ends, map.rows())?)?;
    }
    Ok(shapes)
}

/// All natural maps from the presheaf number x to the presheaf number y, or over the budget exactly where they cost more cells.
pub(crate) fn listed_maps(
    alloc: Global,
    cat: &Cat,
    ends: (u32, u32),
    from: &Functor,
    to: &Functor,
    budget: u64,
) -> Result<Hom, Stop>
    requires domain { IsFunctor cat.now from.now }
    requires codomain { IsFunctor cat.now to.now }
    requires budget { budget ≤ max_room }
    ensures hom { IfOk result (IsHom cat.now ends.0 ends.1 from.now to.now budget) }
    ensures stop { IfErr result (IsUnlisted cat.now from.now to.now budget) }
{
    let _objects = cat.objects();
    let cost = 1 + elements(from.sizes());
    match list_maps(alloc, cat, from, to, budget / cost)? {
        Listing::Over => Err(Stop::Budget),
        Listing::All(maps) => {
            let shapes = shapes(alloc, ends, maps.as_slice())?;
            let cells = maps.len() as u64 * cost;
            Ok(Hom { shapes, cells })
        }
    }
}
