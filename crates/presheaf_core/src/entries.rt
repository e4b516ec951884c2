// What is listed along an arrow.
ghost use Rattle.std.specs.Prelude.{◌≡◌, ◌<◌, ℕ, true, false, not, length, map, get_or, MatchOption, IfOk};
ghost use Rattle.std.specs.List.{range_with_len};
ghost use Rattle.finite_lists.specs.Members.{In};
ghost use Rattle.finite_lists.specs.First.{first, some_if};
ghost use Rattle.topos_model.specs.categories.Listed.{entry_at, entries_along};
ghost use Rattle.topos_model.specs.categories.Filling.{has_restriction};
ghost use Rattle.topos_model.specs.presheaves.PresheafFaults.{has_entry};
ghost use Rattle.presheaf_core.specs.Tables.{IsTable};
ghost use Rattle.presheaf_core.specs.Filling.{missing_entry};

use std::alloc::Global;
use topos_model::{Bits, NoMemory, RawAlong};

// The entries that are listed along f, where a restriction is listed.
pub(crate) fn listed_along(along: &[RawAlong], f: u32) -> Option<&[(u32, u32)]>
    ensures { MatchOption result (has_restriction along.now f ≡ false) (λ entries. (has_restriction along.now f ≡ true) × (entries.now ≡ entries_along along.now f)) }
{
    for listed in along {
        if listed.arrow == f {
            return Some(listed.entries.as_slice());
        }
    }
    None
}

// Which of so many elements have an entry.
fn entered(alloc: Global, entries: &[(u32, u32)], size: usize) -> Result<Bits, NoMemory>
    requires { (e : ℕ × ℕ) → In entries.now e → e.0 < size }
    ensures { IfOk result (IsTable (has_entry entries.now) size) }
{
    let mut seen = Bits::new(alloc, size)?;
    for entry in entries {
        seen.set(entry.0 as usize, true);
    }
    Ok(seen)
}

// The first place that is not marked.
fn first_unmarked(bits: &Bits) -> Option<usize>
    ensures { result ≡ first (λ x. some_if (not (get_or bits.now x false)) x) (range_with_len 0 (length bits.now)) }
{
    for x in 0..bits.len() {
        if !bits.get(x) {
            return Some(x);
        }
    }
    None
}

// The first of so many elements without an entry.
pub(crate) fn first_missing(
    alloc: Global,
    entries: &[(u32, u32)],
    size: u32,
) -> Result<Option<u32>, NoMemory>
    requires { (e : ℕ × ℕ) → In entries.now e → e.0 < size }
    ensures { IfOk result (λ x. x ≡ missing_entry entries.now size) }
{
    let seen = entered(alloc, entries, size as usize)?;
    match first_unmarked(&seen) {
        Some(x) => Ok(Some(x as u32)),
        None => Ok(None),
    }
}

// The number that is listed for each of so many elements, and 0 where none is. They are written from the last to the first, so that the first stays.
pub(crate) fn entry_table(
    alloc: Global,
    entries: &[(u32, u32)],
    size: usize,
) -> Result<Vec<u32>, NoMemory>
    ensures { IfOk result (λ table. table.items ≡ map (entry_at entries.now) (range_with_len 0 size)) }
{
    let mut table = Vec::new(alloc);
    table.resize(size, 0)?;
    for i in (0..entries.len()).rev() {
        let (x, restriction) = entries[i];
        if (x as usize) < size {
            table[x as usize] = restriction;
        }
    }
    Ok(table)
}
