// The squares by their places.
ghost use Rattle.std.specs.Prelude.{◌≡◌, ◌<◌, ℕ, map, length, get_or, IfOk};
ghost use Rattle.natural_search.specs.declared.squares.Square.{Square};
ghost use Rattle.natural_search.specs.Squares.{element_of, restricted_of};
ghost use Rattle.natural_search.specs.Domains.{AreLinks};

use crate::chains::Chains;
use crate::squares::Square;
use std::alloc::Global;
use topos_model::{NoMemory, Row};

// At each place the squares of its element, which lead to the restrictions, and those whose restriction it is.
#[derive(Drop)]
pub(crate) struct Links {
    pub(crate) below: Chains,
    pub(crate) above: Chains,
}

// The places of the elements.
fn elements(alloc: Global, squares: &[Square]) -> Result<Row<usize>, NoMemory>
    ensures { IfOk result (λ places. places ≡ map element_of squares.now) }
{
    let mut places = Row::new(alloc);
    for square in squares {
        places.push(square.element)?;
    }
    Ok(places)
}

// The places of the restrictions.
fn restrictions(alloc: Global, squares: &[Square]) -> Result<Row<usize>, NoMemory>
    ensures { IfOk result (λ places. places ≡ map restricted_of squares.now) }
{
    let mut places = Row::new(alloc);
    for square in squares {
        places.push(square.restricted)?;
    }
    Ok(places)
}

impl Links {
    // Those of squares between so many places.
    pub(crate) fn of(alloc: Global, count: usize, squares: &[Square]) -> Result<Links, NoMemory>
        requires element { (s : ℕ) (d : Square) → s < length squares.now → (get_or squares.now s d).element < count }
        requires restricted { (s : ℕ) (d : Square) → s < length squares.now → (get_or squares.now s d).restricted < count }
        ensures { IfOk result (AreLinks count squares.now) }
    {
        let elements = elements(alloc, squares)?;
        let below = Chains::of(alloc, count, elements.as_slice())?;
        let restrictions = restrictions(alloc, squares)?;
        let above = Chains::of(alloc, count, restrictions.as_slice())?;
        Ok(Links { below, above })
    }
}
