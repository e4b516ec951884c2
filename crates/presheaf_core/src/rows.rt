// The rows of restrictions of a presheaf, listed or filled, arrow by arrow.
ghost use Rattle.std.specs.Prelude.{◌≡◌, ◌<◌, ℕ, None, length, map, get_or, IfOk, IfErr};
ghost use Rattle.std.specs.List.{range_with_len};
ghost use Rattle.finite_lists.specs.Members.{In};
ghost use Rattle.finite_lists.specs.First.{first};
ghost use Rattle.topos_model.specs.categories.Listed.{entry_at};
ghost use Rattle.topos_model.specs.categories.Category.{arrows};
ghost use Rattle.topos_model.specs.Laws.{IsCategory};
ghost use Rattle.topos_model.specs.presheaves.Maps.{after_component};
ghost use Rattle.topos_model.specs.categories.Filling.{filled_row, filled_rows};
ghost use Rattle.topos_model.specs.presheaves.PresheafFaults.{IsPresheafListing};
ghost use Rattle.presheaf_core.specs.Faults.{IsFound};
ghost use Rattle.presheaf_core.specs.Filling.{row_fault, missing_entry, AreRowsBelow, IsPairAlong, IsComposedRow};
ghost use Rattle.presheaf_core.specs.FillingFaults.{IsMissingEntry, IsMissingPair};

use crate::FunctorFault;
use crate::entries::{entry_table, first_missing, listed_along};
use crate::filling::filling_pair;
use fin_category::Cat;
use std::alloc::Global;
use topos_model::{NoMemory, RawFunctor, Row};

// The numbers below size, in order.
fn numbers_below(alloc: Global, size: u32) -> Result<Row<u32>, NoMemory>
    ensures { IfOk result (λ row. row ≡ range_with_len 0 size) }
{
    let mut row = Row::new(alloc);
    for x in 0..size {
        row.push(x)?;
    }
    Ok(row)
}

// The same numbers as a list of its own.
fn row_of(alloc: Global, numbers: &[u32]) -> Result<Row<u32>, NoMemory>
    ensures { IfOk result (λ row. row ≡ numbers.now) }
{
    let mut row = Row::new(alloc);
    for number in numbers {
        row.push(*number)?;
    }
    Ok(row)
}

/// A function after another, both as lists of numbers.
pub fn after_row(alloc: Global, second: &[u32], first: &[u32]) -> Result<Row<u32>, NoMemory>
    requires { (x : ℕ) → x < length first.now → get_or first.now x 0 < length second.now }
    ensures { IfOk result (λ row. row ≡ after_component second.now first.now) }
{
    let mut row = Row::new(alloc);
    for x in first {
        row.push(second[*x as usize])?;
    }
    Ok(row)
}

// The restrictions along f that are listed, or the first of so many elements without one.
fn listed_row(
    alloc: Global,
    entries: &[(u32, u32)],
    size: u32,
    f: u32,
) -> Result<Row<u32>, FunctorFault>
    requires { (e : ℕ × ℕ) → In entries.now e → e.0 < size }
    ensures row { IfOk result (λ row. row ≡ map (entry_at entries.now) (range_with_len 0 size)) }
    ensures faultless { IfOk result (λ _. missing_entry entries.now size ≡ None) }
    ensures fault { IfErr result (λ fault. IsMissingEntry f (missing_entry entries.now size) fault) }
{
    if let Some(x) = first_missing(alloc, entries, size)? {
        return Err(FunctorFault::NotTotal { f, x });
    }
    let table = entry_table(alloc, entries, size as usize)?;
    Ok(row_of(alloc, &table)?)
}

// The restrictions along f by the first pair that fills it.
fn composed_row(
    alloc: Global,
    cat: &Cat,
    rows: &[Row<u32>],
    size: u32,
    f: u32,
) -> Result<Row<u32>, FunctorFault>
    requires lawful { IsCategory cat.now }
    requires arrow { f < length cat.now.ends }
    requires count { length rows.now ≡ f }
    requires first { IsPairAlong cat.now rows.now size f }
    ensures row { IfOk result (λ row. IsComposedRow cat.now rows.now size f row) }
    ensures fault { IfErr result (λ fault. IsMissingPair cat.now size f fault) }
{
    if size == 0 {
        return Ok(Row::new(alloc));
    }
    match filling_pair(cat, f) {
        Some((g, h)) => {
            let first = rows[g as usize].as_slice();
            let second = rows[h as usize].as_slice();
            Ok(after_row(alloc, second, first)?)
        }
        None => Err(FunctorFault::RestrictionMissing { f }),
    }
}

// The restrictions along f, or its fault, from the rows of the arrows before it.
fn row_along(
    alloc: Global,
    cat: &Cat,
    raw: &RawFunctor,
    rows: &[Row<u32>],
    f: u32,
) -> Result<Row<u32>, FunctorFault>
    requires lawful { IsCategory cat.now }
    requires listing { IsPresheafListing cat.now raw.now }
    requires arrow { f < length cat.now.ends }
    requires before { AreRowsBelow cat.now raw.now f rows.now }
    ensures row { IfOk result (λ row. row ≡ filled_row cat.now raw.now rows.now f) }
    ensures faultless { IfOk result (λ _. row_fault cat.now raw.now f ≡ None) }
    ensures fault { IfErr result (λ fault. IsFound (row_fault cat.now raw.now f) fault) }
{
    let size = *raw.sizes.get(cat.cod(f) as usize);
    if f < cat.objects() {
        return Ok(numbers_below(alloc, size)?);
    }
    match listed_along(raw.along.as_slice(), f) {
        Some(entries) => listed_row(alloc, entries, size, f),
        None => composed_row(alloc, cat, rows, size, f),
    }
}

// The restrictions along each arrow, or the first fault.
pub(crate) fn filled_rows(
    alloc: Global,
    cat: &Cat,
    raw: &RawFunctor,
) -> Result<Row<Row<u32>>, FunctorFault>
    requires { IsPresheafListing cat.now raw.now }
    ensures rows { IfOk result (λ rows. rows ≡ filled_rows cat.now raw.now (length cat.now.ends)) }
    ensures faultless { IfOk result (λ _. first (row_fault cat.now raw.now) (arrows cat.now) ≡ None) }
    ensures fault { IfErr result (λ fault. IsFound (first (row_fault cat.now raw.now) (arrows cat.now)) fault) }
    ensures lawful { IsCategory cat.now }
{
    let mut rows = Row::new(alloc);
    for f in 0..cat.arrows() {
        let row = row_along(alloc, cat, raw, rows.as_slice(), f)?;
        rows.push(row)?;
    }
    Ok(rows)
}
