// The images that a listed map gives.
ghost use Rattle.std.specs.Prelude.{◌≡◌, ◌≤◌, ◌<◌, ◌+◌, ◌^◌, ℕ, None, List, map, length, get_or, replicate, IfOk, IfErr};
ghost use Rattle.std.specs.List.{range_with_len};
ghost use Rattle.finite_lists.specs.Members.{In};
ghost use Rattle.finite_lists.specs.First.{first};
ghost use Rattle.topos_model.specs.declared.raw.RawEntry.{RawEntry};
ghost use Rattle.topos_model.specs.Laws.{size};
ghost use Rattle.topos_model.specs.presheaves.MapFaults.{entry_fault, listed_image};
ghost use Rattle.natural_maps.specs.Faults.{IsFound};
ghost use Rattle.natural_maps.specs.Places.{offset};
ghost use Rattle.natural_maps.specs.Images.{AreImages, AreWithin, image_at};

use crate::MapFault;
use presheaf_core::Functor;
use std::alloc::Global;
use topos_model::{NoMemory, RawEntry, Row};

// The first entry that names no element, in written order, left side first.
pub(crate) fn entry_fault(p: &Functor, q: &Functor, entries: &[RawEntry]) -> Result<(), MapFault>
    requires domain { (e : RawEntry) → In entries.now e → e.at < length p.now.sizes }
    requires codomain { (e : RawEntry) → In entries.now e → e.at < length q.now.sizes }
    ensures faultless { IfOk result (λ _. first (entry_fault p.now q.now) entries.now ≡ None) }
    ensures fault { IfErr result (λ fault. IsFound (first (entry_fault p.now q.now) entries.now) fault) }
{
    for entry in entries {
        if entry.from >= p.size(entry.at) {
            return Err(MapFault::NoElement {
                at: entry.at,
                k: entry.from,
            });
        }
        if entry.to >= q.size(entry.at) {
            return Err(MapFault::NoElement {
                at: entry.at,
                k: entry.to,
            });
        }
    }
    Ok(())
}

// So many places without an image.
fn no_images(alloc: Global, count: usize) -> Result<Vec<Option<u32>>, NoMemory>
    ensures { IfOk result (λ images. images.items ≡ replicate count None) }
{
    let mut images = Vec::new(alloc);
    images.resize(count, None)?;
    Ok(images)
}

// The image of each element, where one is listed. They are written from the last to the first, so that the first stays.
pub(crate) fn images(
    alloc: Global,
    sizes: &[u32],
    offsets: &[usize],
    entries: &[RawEntry],
) -> Result<Vec<Option<u32>>, NoMemory>
    requires few { length sizes.now < 2 ^ 16 }
    requires offsets { offsets.now ≡ map (offset sizes.now) (range_with_len 0 (length sizes.now + 1)) }
    requires within { AreWithin sizes.now entries.now }
    ensures { IfOk result (λ images. AreImages sizes.now entries.now images.items) }
{
    let mut images = no_images(alloc, offsets[sizes.len()])?;
    for i in (0..entries.len()).rev() {
        let entry = entries[i];
        images[offsets[entry.at as usize] + entry.from as usize] = Some(entry.to);
    }
    Ok(images)
}
