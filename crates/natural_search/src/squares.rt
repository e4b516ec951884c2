// Squares of places, whose numbers have to fit.
ghost use Rattle.std.specs.Prelude.{◌≡◌, ◌<◌, ◌≤◌, ℕ, true, false, [], map, length, get_or, IfOk};
ghost use Rattle.natural_search.specs.Squares.{later_place, Fits, AreSquares, AreElements, AreChains};
ghost use Rattle.natural_search.specs.declared.squares.Square.{Square};

use crate::chains::Chains;
use std::alloc::Global;
use topos_model::{NoMemory, Row};

/// Two places and an arrow: the number at the one place is to be the restriction along the arrow of the number at the other, the element.
#[derive(Clone, Copy, Drop)]
pub struct Square {
    pub arrow: u32,
    pub element: usize,
    pub restricted: usize,
}

// The restrictions along an arrow.
pub(crate) fn row(along: &[Row<u32>], arrow: u32) -> &[u32]
    requires { arrow < length along.now }
    ensures { result.now ≡ get_or along.now arrow [] }
{
    along[arrow as usize].as_slice()
}

impl Square {
    // The later one of its places.
    pub(crate) fn later_place(&self) -> usize
        ensures { result ≡ later_place self.now }
    {
        if self.element < self.restricted {
            self.restricted
        } else {
            self.element
        }
    }

    // Whether the numbers at its places fit.
    fn fits(&self, along: &[Row<u32>], values: &[u32]) -> bool
        requires arrow { self.now.arrow < length along.now }
        requires element { self.now.element < length values.now }
        requires restricted { self.now.restricted < length values.now }
        requires within { get_or values.now self.now.element 0 < length (get_or along.now self.now.arrow []) }
        ensures fit { result ≡ true → Fits along.now values.now self.now }
        ensures broken { result ≡ false → Fits along.now values.now self.now → ⊥ }
    {
        values[self.restricted] == row(along, self.arrow)[values[self.element] as usize]
    }
}

// The later places of squares.
pub(crate) fn later_places(alloc: Global, squares: &[Square]) -> Result<Row<usize>, NoMemory>
    ensures { IfOk result (λ places. places ≡ map later_place squares.now) }
{
    let mut places = Row::new(alloc);
    for square in squares {
        places.push(square.later_place())?;
    }
    Ok(places)
}

// Whether the numbers fit at each square whose later place is this one.
pub(crate) fn all_fit(
    along: &[Row<u32>],
    squares: &[Square],
    chains: &Chains,
    values: &[u32],
    place: usize,
) -> bool
    requires squares { AreSquares along.now (length values.now) squares.now }
    requires chains { AreChains (length values.now) (map later_place squares.now) chains.now.heads.items chains.now.links }
    requires place { place < length values.now }
    requires within { AreElements along.now squares.now values.now place }
    ensures fit { result ≡ true → (s : ℕ) (d : Square) → s < length squares.now → later_place (get_or squares.now s d) ≡ place → Fits along.now values.now (get_or squares.now s d) }
    ensures broken { result ≡ false → ((s : ℕ) × (s < length squares.now) × ((d : Square) → (later_place (get_or squares.now s d) ≡ place) × (Fits along.now values.now (get_or squares.now s d) → ⊥))) }
{
    let mut next = chains.heads[place];
    'chain: while 0 < next {
        let index = next - 1;
        let square = squares[index];
        if !square.fits(along, values) {
            return false;
        }
        next = *chains.links.get(index);
    }
    true
}
