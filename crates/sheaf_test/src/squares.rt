// The squares that make a family on a sieve a matching one: its elements stand at the places of the sieve's arrows.
ghost use Rattle.std.specs.Prelude.{◌≡◌, ◌<◌, ◌++◌, ℕ, length, IfOk, OnOk};
ghost use Rattle.finite_lists.specs.Members.{In};
ghost use Rattle.topos_model.specs.categories.Category.{sieves};
ghost use Rattle.topos_model.specs.Laws.{IsFunctor};
ghost use Rattle.sheaf_test.specs.Families.{bounds_of, squares_at, squares_of, IsPlaceTable};

use fin_category::Cat;
use natural_search::Square;
use presheaf_core::Functor;
use std::alloc::Global;
use topos_model::{NoMemory, Row};

// How many elements there are at the domain of each arrow.
pub(crate) fn bounds(
    alloc: Global,
    cat: &Cat,
    x: &Functor,
    arrows: &[u32],
) -> Result<Row<u32>, NoMemory>
    requires functor { IsFunctor cat.now x.now }
    requires arrows { (f : ℕ) → In arrows.now f → f < length cat.now.ends }
    ensures { IfOk result (λ bounds. bounds ≡ bounds_of cat.now x.now arrows.now) }
{
    let mut bounds = Row::new(alloc);
    for f in arrows {
        bounds.push(x.size(cat.dom(*f)))?;
    }
    Ok(bounds)
}

// The place of each arrow of a sieve.
fn place_table(alloc: Global, cat: &Cat, c: u32, arrows: &[u32]) -> Result<Vec<usize>, NoMemory>
    requires { In (sieves cat.now c) arrows.now }
    ensures { IfOk result (λ table. IsPlaceTable (length cat.now.ends) arrows.now table.items) }
{
    // On which object the sieve is, is a condition alone.
    let _ = c;
    let mut table = Vec::new(alloc);
    table.resize(cat.arrows() as usize, 0)?;
    for i in 0..arrows.len() {
        table[arrows[i] as usize] = i;
    }
    Ok(table)
}

// Puts last the squares of the arrow at a place of a sieve.
fn push_squares(
    squares: &mut Row<Square>,
    cat: &Cat,
    c: u32,
    arrows: &[u32],
    table: &[usize],
    i: usize,
) -> Result<(), NoMemory>
    requires sieve { In (sieves cat.now c) arrows.now }
    requires table { IsPlaceTable (length cat.now.ends) arrows.now table.now }
    requires place { i < length arrows.now }
    ensures { OnOk result (squares.new ≡ squares.old ++ squares_at cat.now arrows.now i) }
{
    let _ = c;
    let f = arrows[i];
    for g in cat.arrows_into(cat.dom(f)) {
        squares.push(Square {
            arrow: *g,
            element: i,
            restricted: table[cat.compose(f, *g) as usize],
        })?;
    }
    Ok(())
}

// The squares of all arrows of a sieve.
pub(crate) fn squares(
    alloc: Global,
    cat: &Cat,
    c: u32,
    arrows: &[u32],
) -> Result<Row<Square>, NoMemory>
    requires { In (sieves cat.now c) arrows.now }
    ensures { IfOk result (λ squares. squares ≡ squares_of cat.now arrows.now) }
{
    let table = place_table(alloc, cat, c, arrows)?;
    let mut squares = Row::new(alloc);
    for i in 0..arrows.len() {
        push_squares(&mut squares, cat, c, arrows, &table, i)?;
    }
    Ok(squares)
}
