// The components of a listed map.
ghost use Rattle.std.specs.Prelude.{◌≡◌, ◌<◌, ◌≤◌, ◌+◌, ◌^◌, None, map, length, IfOk, IfErr};
ghost use Rattle.std.specs.List.{range_with_len};
ghost use Rattle.finite_lists.specs.First.{first};
ghost use Rattle.natural_maps.specs.Faults.{IsFound};
ghost use Rattle.natural_maps.specs.Images.{AreWithin};
ghost use Rattle.natural_maps.specs.Components.{number_from, missing_at, listed_component, unlisted_at};

use crate::MapFault;
use crate::images::images;
use crate::places::offsets;
use std::alloc::Global;
use topos_model::{RawEntry, Row};

// The images of the elements at c, which stand from the start on, or the first element without one.
fn component(
    alloc: Global,
    images: &[Option<u32>],
    start: usize,
    c: u32,
    size: u32,
) -> Result<Row<u32>, MapFault>
    requires { start + size ≤ length images.now }
    ensures row { IfOk result (λ row. row ≡ map (number_from images.now start) (range_with_len 0 size)) }
    ensures total { IfOk result (λ _. first (missing_at images.now start c) (range_with_len 0 size) ≡ None) }
    ensures fault { IfErr result (λ fault. IsFound (first (missing_at images.now start c) (range_with_len 0 size)) fault) }
{
    let mut row = Row::new(alloc);
    for x in 0..size {
        match images[start + x as usize] {
            Some(y) => row.push(y)?,
            None => return Err(MapFault::MapNotTotal { at: c, x }),
        }
    }
    Ok(row)
}

// The listed images of all elements, or the first element without one.
pub(crate) fn components(
    alloc: Global,
    objects: u32,
    sizes: &[u32],
    entries: &[RawEntry],
) -> Result<Row<Row<u32>>, MapFault>
    requires few { objects < 2 ^ 16 }
    requires objects { length sizes.now ≡ objects }
    requires within { AreWithin sizes.now entries.now }
    ensures rows { IfOk result (λ rows. rows ≡ map (listed_component sizes.now entries.now) (range_with_len 0 objects)) }
    ensures total { IfOk result (λ _. first (unlisted_at sizes.now entries.now) (range_with_len 0 objects) ≡ None) }
    ensures fault { IfErr result (λ fault. IsFound (first (unlisted_at sizes.now entries.now) (range_with_len 0 objects)) fault) }
{
    let offsets = offsets(alloc, sizes)?;
    let starts = offsets.as_slice();
    let images = images(alloc, sizes, starts, entries)?;
    let mut rows = Row::new(alloc);
    for c in 0..objects {
        let place = c as usize;
        let row = component(alloc, &images, starts[place], c, sizes[place])?;
        rows.push(row)?;
    }
    Ok(rows)
}
