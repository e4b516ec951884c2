// The squares that a natural map has to make commute, with the elements at all objects in one line.
ghost use Rattle.std.specs.Prelude.{◌≡◌, ◌<◌, ◌+◌, ◌^◌, ◌++◌, ℕ, [], map, length, get_or, IfOk, OnOk};
ghost use Rattle.std.specs.List.{range_with_len};
ghost use Rattle.topos_model.specs.Laws.{IsFunctor};
ghost use Rattle.natural_maps.specs.Places.{offset};
ghost use Rattle.natural_maps.specs.Squares.{squares_of};

use fin_category::Cat;
use natural_search::Square;
use presheaf_core::Functor;
use std::alloc::Global;
use topos_model::{NoMemory, Row};

// Puts last the squares at an arrow, whose restrictions are given. The elements at its ends begin at these places.
fn push_squares(
    squares: &mut Row<Square>,
    along: &[u32],
    arrow: u32,
    elements: usize,
    restrictions: usize,
) -> Result<(), NoMemory>
    requires elements { elements + length along.now < 2 ^ 64 }
    requires restrictions { (x : ℕ) → x < length along.now → restrictions + get_or along.now x 0 < 2 ^ 64 }
    ensures { OnOk result (squares.new ≡ squares.old ++ map (λ x. record { arrow = arrow; element = elements + x; restricted = restrictions + get_or along.now x 0 }) (range_with_len 0 (length along.now))) }
{
    for x in 0..along.len() {
        squares.push(Square {
            arrow,
            element: elements + x,
            restricted: restrictions + along[x] as usize,
        })?;
    }
    Ok(())
}

// The squares at all arrows but the identities, whose squares always commute.
pub(crate) fn squares(
    alloc: Global,
    cat: &Cat,
    p: &Functor,
    starts: &[usize],
) -> Result<Row<Square>, NoMemory>
    requires domain { IsFunctor cat.now p.now }
    requires starts { starts.now ≡ map (offset p.now.sizes) (range_with_len 0 (length p.now.sizes + 1)) }
    ensures { IfOk result (λ squares. squares ≡ squares_of cat.now p.now) }
{
    let mut squares = Row::new(alloc);
    for f in cat.objects()..cat.arrows() {
        push_squares(
            &mut squares,
            p.row(f),
            f,
            starts[cat.cod(f) as usize],
            starts[cat.dom(f) as usize],
        )?;
    }
    Ok(squares)
}
