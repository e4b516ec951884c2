// The search itself.
ghost use Rattle.std.specs.Prelude.{◌≡◌, ◌<◌, ◌≤◌, ◌+◌, ◌++◌, ◌∷◌, ◌^◌, ℕ, List, [], map, length, get_or, IfOk, OnOk};
ghost use Rattle.natural_search.specs.Search.{fitting};
ghost use Rattle.natural_search.specs.Squares.{later_place, AreSquares, AreBounded, AreChains};
ghost use Rattle.natural_search.specs.declared.squares.Square.{Square};
ghost use Rattle.natural_search.specs.Domains.{AreLinks, ArePreimages};
ghost use Rattle.natural_search.specs.Rows.{AreAll, AreFirst};

use crate::chains::{Chains, no_heads};
use crate::domains::Domains;
use crate::free_places::search_room;
use crate::links::Links;
use crate::preimages::Preimages;
use crate::squares::{Square, all_fit, later_places};
use crate::{FirstRows, FoundRows};
use std::alloc::Global;
use topos_model::{NoMemory, Row};

// Numbers that are all 0.
fn zeros(alloc: Global, count: usize) -> Result<Vec<u32>, NoMemory>
    ensures { IfOk result (λ zeros. length zeros.items ≡ count) }
{
    let mut zeros = Vec::new(alloc);
    zeros.resize(count, 0)?;
    Ok(zeros)
}

/// Puts the numbers of a row last.
pub fn push_row(numbers: &mut Row<u32>, row: &[u32]) -> Result<(), NoMemory>
    ensures { OnOk result (numbers.new ≡ numbers.old ++ row.now) }
{
    for number in row {
        numbers.push(*number)?;
    }
    Ok(())
}

// The first rows at some places, place by place: a number that leaves none at another place, or does not fit the earlier ones, is passed over.
fn search(
    alloc: Global,
    along: &[Row<u32>],
    preimages: &Preimages,
    room: u64,
    bounds: &[u32],
    squares: &[Square],
    chains: &Chains,
    links: &Links,
) -> Result<FirstRows, NoMemory>
    requires some { 0 < length bounds.now }
    requires squares { AreSquares along.now (length bounds.now) squares.now }
    requires bounded { AreBounded along.now bounds.now squares.now }
    requires chains { AreChains (length bounds.now) (map later_place squares.now) chains.now.heads.items chains.now.links }
    requires links { AreLinks (length bounds.now) squares.now links.now }
    requires preimages { ArePreimages along.now preimages.now.masks.items }
    ensures { IfOk result (AreFirst room (fitting along.now squares.now bounds.now)) }
{
    let mut count = 0;
    let mut numbers = Row::new(alloc);
    let mut values = zeros(alloc, bounds.len())?;
    let mut domains = Domains::new(alloc, bounds)?;
    // How many changes of the domains there were when each place was reached.
    let mut levels = no_heads(alloc, bounds.len())?;
    let mut place = 0;
    let mut next = 0;
    'places: loop {
        domains.rewind(levels[place]);
        if next < bounds[place] {
            values[place] = next;
            if !domains.assign(along, preimages, squares, links, place, next)? {
                next += 1;
            } else if !all_fit(along, squares, chains, &values, place) {
                next += 1;
            } else if place + 1 < bounds.len() {
                place += 1;
                levels[place] = domains.level();
                next = 0;
            } else {
                if count == room {
                    let rows = FoundRows { count, numbers };
                    return Ok(FirstRows { rows, more: true });
                }
                push_row(&mut numbers, &values)?;
                count += 1;
                next += 1;
            }
        } else if place == 0 {
            let rows = FoundRows { count, numbers };
            return Ok(FirstRows { rows, more: false });
        } else {
            place -= 1;
            next = values[place] + 1;
        }
    }
}

// The first rows where there is no place: the empty row is the only one.
fn first_empty_rows(alloc: Global, room: u64) -> FirstRows
    ensures { AreFirst room ([] ∷ []) result }
{
    let count = room.min(1);
    let rows = FoundRows {
        count,
        numbers: Row::new(alloc),
    };
    FirstRows {
        rows,
        more: room < 1,
    }
}

// The first rows where they are all.
fn if_whole(first: FirstRows) -> Option<FoundRows>
    ensures { (room : ℕ) (all : List (List ℕ)) → AreFirst room all first → AreAll room all result }
{
    if first.more { None } else { Some(first.rows) }
}

// The squares by their places.
fn chains_of(alloc: Global, places: usize, squares: &[Square]) -> Result<Chains, NoMemory>
    requires element { (s : ℕ) (d : Square) → s < length squares.now → (get_or squares.now s d).element < places }
    requires restricted { (s : ℕ) (d : Square) → s < length squares.now → (get_or squares.now s d).restricted < places }
    ensures { IfOk result (λ chains. AreChains places (map later_place squares.now) chains.heads.items chains.links) }
{
    let later = later_places(alloc, squares)?;
    Chains::of(alloc, places, later.as_slice())
}

/// The first rows, at most so many, of numbers below the bounds, one at each place, at which all squares fit, in lexicographic order; and whether there are more.
/// Want of memory is the only error.
pub fn first_rows(
    alloc: Global,
    along: &[Row<u32>],
    preimages: &Preimages,
    bounds: &[u32],
    squares: &[Square],
    room: u64,
) -> Result<FirstRows, NoMemory>
    requires squares { AreSquares along.now (length bounds.now) squares.now }
    requires bounded { AreBounded along.now bounds.now squares.now }
    requires preimages { ArePreimages along.now preimages.now.masks.items }
    ensures { IfOk result (AreFirst room (fitting along.now squares.now bounds.now)) }
{
    if bounds.len() == 0 {
        return Ok(first_empty_rows(alloc, room));
    }
    let chains = chains_of(alloc, bounds.len(), squares)?;
    let links = Links::of(alloc, bounds.len(), squares)?;
    search(
        alloc, along, preimages, room, bounds, squares, &chains, &links,
    )
}

/// All these rows, or none exactly where there are more than the room; this is seen at the first row where places without a square make more of it than the room.
pub fn all_rows(
    alloc: Global,
    along: &[Row<u32>],
    preimages: &Preimages,
    bounds: &[u32],
    squares: &[Square],
    room: u64,
) -> Result<Option<FoundRows>, NoMemory>
    requires squares { AreSquares along.now (length bounds.now) squares.now }
    requires bounded { AreBounded along.now bounds.now squares.now }
    requires preimages { ArePreimages along.now preimages.now.masks.items }
    requires room { room < 2 ^ 32 }
    ensures { IfOk result (AreAll room (fitting along.now squares.now bounds.now)) }
{
    if bounds.len() == 0 {
        return Ok(if_whole(first_empty_rows(alloc, room)));
    }
    let chains = chains_of(alloc, bounds.len(), squares)?;
    let links = Links::of(alloc, bounds.len(), squares)?;
    let narrowed = search_room(squares, &links, bounds, room);
    let first = search(
        alloc, along, preimages, narrowed, bounds, squares, &chains, &links,
    )?;
    Ok(if_whole(first))
}
