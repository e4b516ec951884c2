// All natural maps between two presheaves.
ghost use Rattle.std.specs.Prelude.{◌≡◌, ◌<◌, ◌≤◌, ◌+◌, length, take, drop, Contains, IfOk};
ghost use Rattle.topos_model.specs.Laws.{IsFunctor};
ghost use Rattle.topos_model.specs.presheaves.NaturalMaps.{maps};
ghost use Rattle.natural_maps.specs.Places.{offset, cut};
ghost use Rattle.natural_maps.specs.Room.{max_room};
ghost use Rattle.natural_maps.specs.Search.{bounds_of};
ghost use Rattle.natural_maps.specs.Squares.{squares_of};
ghost use Rattle.natural_search.specs.Search.{fitting};
ghost use Rattle.natural_search.specs.Rows.{AreRows};
ghost use Rattle.natural_maps.specs.Listed.{IfAll, IfOver};

use crate::NatMap;
use crate::bounds::bounds;
use crate::places::offsets;
use crate::squares::squares;
use fin_category::Cat;
use natural_search::{FoundRows, Preimages, all_rows};
use presheaf_core::Functor;
use std::alloc::Global;
use topos_model::{NoMemory, Row};

/// All natural maps, or `Over` where there are more than the room.
#[derive(Drop)]
pub enum Listing {
    /// All natural maps, in lexicographic order.
    All(Row<NatMap>),
    /// There are more than the room.
    Over,
}

// So many of the numbers, from the start on.
fn piece(alloc: Global, values: &[u32], start: usize, count: u32) -> Result<Row<u32>, NoMemory>
    requires { start + count ≤ length values.now }
    ensures { IfOk result (λ row. row ≡ take count (drop start values.now)) }
{
    let mut row = Row::new(alloc);
    for x in 0..count {
        row.push(values[start + x as usize])?;
    }
    Ok(row)
}

// Numbers for all elements, cut into one row for each object.
#[tactic(auto, using(crate::proofs::CutRows::piece_within))]
fn cut_rows(alloc: Global, sizes: &[u32], values: &[u32]) -> Result<Row<Row<u32>>, NoMemory>
    requires { length values.now ≡ offset sizes.now (length sizes.now) }
    ensures { IfOk result (λ rows. rows ≡ cut sizes.now values.now) }
{
    let mut rows = Row::new(alloc);
    let mut start = 0;
    for size in sizes {
        rows.push(piece(alloc, values, start, *size)?)?;
        start += *size as usize;
    }
    Ok(rows)
}

// The natural map that numbers for all elements make.
fn map_of(
    alloc: Global,
    cat: &Cat,
    p: &Functor,
    q: &Functor,
    values: &[u32],
) -> Result<NatMap, NoMemory>
    requires domain { IsFunctor cat.now p.now }
    requires codomain { IsFunctor cat.now q.now }
    requires places { length values.now ≡ offset p.now.sizes (length p.now.sizes) }
    requires natural { Contains (maps cat.now p.now q.now) (cut p.now.sizes values.now) }
    ensures { IfOk result (λ map. map ≡ cut p.now.sizes values.now) }
{
    cat.laws();
    let rows = cut_rows(alloc, p.sizes(), values)?;
    Ok(NatMap::from_rows(cat, p, q, rows))
}

// The natural maps that rows of numbers for all elements make.
fn maps_of(
    alloc: Global,
    cat: &Cat,
    p: &Functor,
    q: &Functor,
    width: usize,
    found: &FoundRows,
) -> Result<Row<NatMap>, NoMemory>
    requires domain { IsFunctor cat.now p.now }
    requires codomain { IsFunctor cat.now q.now }
    requires width { width ≡ length (bounds_of cat.now p.now q.now) }
    requires found { AreRows (fitting q.now.along (squares_of cat.now p.now) (bounds_of cat.now p.now q.now)) found.now }
    ensures { IfOk result (λ all. all ≡ maps cat.now p.now q.now) }
{
    cat.laws();
    let mut all = Row::new(alloc);
    for i in 0..found.count {
        all.push(map_of(alloc, cat, p, q, found.row(i, width))?)?;
    }
    Ok(all)
}

/// All natural maps from p to q (Categorical Preliminaries, I), in lexicographic order of their numbers: objects in order, elements in order.
/// `Over` comes exactly where there are more than `room`. Want of memory is the only error.
pub fn list_maps(
    alloc: Global,
    cat: &Cat,
    p: &Functor,
    q: &Functor,
    room: u64,
) -> Result<Listing, NoMemory>
    requires domain { IsFunctor cat.now p.now }
    requires codomain { IsFunctor cat.now q.now }
    requires room { room ≤ max_room }
    ensures all { IfOk result (λ listing. IfAll listing (λ found. found ≡ maps cat.now p.now q.now)) }
    ensures within { IfOk result (λ listing. IfAll listing (λ found. length found ≤ room)) }
    ensures over { IfOk result (λ listing. IfOver listing (room < length (maps cat.now p.now q.now))) }
{
    cat.laws();
    let bounds = bounds(alloc, cat, p, q)?;
    let starts = offsets(alloc, p.sizes())?;
    let squares = squares(alloc, cat, p, starts.as_slice())?;
    let preimages = Preimages::of(alloc, q.rows())?;
    match all_rows(
        alloc,
        q.rows(),
        &preimages,
        bounds.as_slice(),
        squares.as_slice(),
        room,
    )? {
        Some(found) => Ok(Listing::All(maps_of(alloc, cat, p, q, bounds.len(), &found)?)),
        None => Ok(Listing::Over),
    }
}
