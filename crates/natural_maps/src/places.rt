// The elements at all objects in one line: objects in order, and the elements of each in order.
ghost use Rattle.std.specs.Prelude.{◌≡◌, ◌≤◌, ◌<◌, ◌+◌, ◌^◌, map, length, IfOk};
ghost use Rattle.std.specs.List.{range_with_len};
ghost use Rattle.natural_maps.specs.Places.{offset};

use std::alloc::Global;
use topos_model::{NoMemory, Row};

// How many elements stand before those at each object, and how many there are in all.
pub(crate) fn offsets(alloc: Global, sizes: &[u32]) -> Result<Row<usize>, NoMemory>
    requires { length sizes.now < 2 ^ 16 }
    ensures { IfOk result (λ offsets. offsets ≡ map (offset sizes.now) (range_with_len 0 (length sizes.now + 1))) }
{
    let mut offsets = Row::new(alloc);
    let mut before = 0;
    offsets.push(before)?;
    for size in sizes {
        before += *size as usize;
        offsets.push(before)?;
    }
    Ok(offsets)
}
