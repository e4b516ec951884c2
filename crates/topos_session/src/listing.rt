// Whether the numbers of a listed presheaf and of a listed map are in range.
ghost use Rattle.std.specs.Prelude.{◌≡◌, ◌&&◌, true, length, map, get_or, eqb, leb, ltb, IfOk};
ghost use Rattle.std.specs.List.{list_all};
ghost use Rattle.topos_model.specs.statements.Form.{are_distinct, along_fits, is_presheaf_listing, is_map_listing, max_elements};

use indexmap::IndexSet;
use std::alloc::{AllocError, Global};
use topos_model::{Bits, NoMemory, RawAlong, RawEntry, RawFunctor};

/// How many elements a declared presheaf may have at an object.
const MAX_ELEMENTS: u32 = 256;

// Whether no number stands twice. They are marked from the last to the first.
fn are_distinct(alloc: Global, numbers: &[u32], bound: usize) -> Result<bool, NoMemory>
    requires { list_all (λ n. ltb n bound) numbers.now ≡ true }
    ensures { IfOk result (λ b. b ≡ are_distinct numbers.now) }
{
    let mut seen = Bits::new(alloc, bound)?;
    for i in (0..numbers.len()).rev() {
        let number = numbers[i] as usize;
        if seen.get(number) {
            return Ok(false);
        }
        seen.set(number, true);
    }
    Ok(true)
}

// How many elements there are at an object, and none where it is no object.
fn size_at(sizes: &[u32], c: u32) -> u32
    ensures { result ≡ get_or sizes.now c 0 }
{
    match sizes.get(c as usize) {
        Some(size) => *size,
        None => 0,
    }
}

// Whether each entry leads from so many elements to so many.
fn entries_fit(entries: &[(u32, u32)], from: u32, to: u32) -> bool
    ensures { result ≡ list_all (λ e. ltb e.0 from && ltb e.1 to) entries.now }
{
    entries.iter().all(|entry| entry.0 < from && entry.1 < to)
}

// The elements with an entry, in the order of the entries.
fn elements_of(alloc: Global, entries: &[(u32, u32)]) -> Result<Vec<u32>, AllocError>
    ensures { IfOk result (λ elements. elements.items ≡ map (λ e. e.0) entries.now) }
{
    entries.iter().map(|entry| entry.0).collect(alloc)
}

// The arrows along which something is listed, in the order of the list.
fn arrows_of(alloc: Global, along: &[RawAlong]) -> Result<Vec<u32>, AllocError>
    ensures { IfOk result (λ arrows. arrows.items ≡ map (λ a. a.arrow) along.now) }
{
    along.iter().map(|listed| listed.arrow).collect(alloc)
}

// Whether no element has two entries.
fn are_entered_once(alloc: Global, entries: &[(u32, u32)], size: u32) -> Result<bool, NoMemory>
    requires { list_all (λ e. ltb e.0 size) entries.now ≡ true }
    ensures { IfOk result (λ b. b ≡ are_distinct (map (λ e. e.0) entries.now)) }
{
    let elements = elements_of(alloc, entries)?;
    are_distinct(alloc, &elements, size as usize)
}

// Whether no arrow is listed twice.
fn are_listed_once(alloc: Global, along: &[RawAlong], number: usize) -> Result<bool, NoMemory>
    requires { list_all (λ a. ltb a.arrow number) along.now ≡ true }
    ensures { IfOk result (λ b. b ≡ are_distinct (map (λ a. a.arrow) along.now)) }
{
    let arrows = arrows_of(alloc, along)?;
    are_distinct(alloc, &arrows, number)
}

// Whether a restriction is listed along a declared arrow, for elements at its codomain, each at most once, to elements at its domain.
fn along_fits(
    alloc: Global,
    objects: u32,
    ends: &[(u32, u32)],
    sizes: &[u32],
    along: &RawAlong,
) -> Result<bool, NoMemory>
    ensures { IfOk result (λ b. b ≡ along_fits objects ends.now sizes.now along.now) }
{
    if along.arrow < objects || along.arrow as usize >= ends.len() {
        return Ok(false);
    }
    let (dom, cod) = ends[along.arrow as usize];
    let size = size_at(sizes, cod);
    let entries = along.entries.as_slice();
    if !entries_fit(entries, size, size_at(sizes, dom)) {
        return Ok(false);
    }
    are_entered_once(alloc, entries, size)
}

fn all_along_fit(
    alloc: Global,
    objects: u32,
    ends: &[(u32, u32)],
    sizes: &[u32],
    along: &[RawAlong],
) -> Result<bool, NoMemory>
    ensures { IfOk result (λ b. b ≡ list_all (along_fits objects ends.now sizes.now) along.now) }
{
    for listed in along {
        if !along_fits(alloc, objects, ends, sizes, listed)? {
            return Ok(false);
        }
    }
    Ok(true)
}

// Whether there is one size for each object, and none too large.
fn are_sizes(sizes: &[u32], objects: u32) -> bool
    ensures { result ≡ (eqb (length sizes.now) objects && list_all (λ n. leb n max_elements) sizes.now) }
{
    sizes.len() == objects as usize && are_not_large(sizes)
}

// Whether no size is too large.
fn are_not_large(sizes: &[u32]) -> bool
    ensures { result ≡ list_all (λ n. leb n max_elements) sizes.now }
{
    sizes.iter().all(|size| *size <= MAX_ELEMENTS)
}

/// Whether the numbers of a listed presheaf are in range, on a category with so many objects and these ends of arrows, the identities first: one size for each
/// object, and along declared arrows, each at most once, at most one entry for each element. Want of memory is the only error.
pub(crate) fn is_presheaf_listing(
    alloc: Global,
    objects: u32,
    ends: &[(u32, u32)],
    raw: &RawFunctor,
) -> Result<bool, NoMemory>
    ensures { IfOk result (λ b. b ≡ is_presheaf_listing objects ends.now raw.now) }
{
    let sizes = raw.sizes.as_slice();
    let along = raw.along.as_slice();
    if !are_sizes(sizes, objects) {
        return Ok(false);
    }
    if !all_along_fit(alloc, objects, ends, sizes, along)? {
        return Ok(false);
    }
    are_listed_once(alloc, along, ends.len())
}

/// Whether the entries of a listed map stand at objects, for each element at most one. The numbers of elements may be any. Want of memory is the only error.
pub(crate) fn is_map_listing(
    alloc: Global,
    objects: u32,
    entries: &[RawEntry],
) -> Result<bool, NoMemory>
    ensures { IfOk result (λ b. b ≡ is_map_listing objects entries.now) }
{
    let mut seen = IndexSet::new(alloc);
    for i in (0..entries.len()).rev() {
        let entry = entries[i];
        if entry.at >= objects {
            return Ok(false);
        }
        match seen.insert((entry.at, entry.from)) {
            Ok(true) => {}
            Ok(false) => return Ok(false),
            Err(_) => return Err(NoMemory),
        }
    }
    Ok(true)
}
