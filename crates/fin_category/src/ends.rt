// The ends of all arrows, and the arrows by their codomains.
ghost use Rattle.std.specs.Prelude.{◌≡◌, ◌<◌, ◌≤◌, ◌^◌, length, IfOk};
ghost use Rattle.topos_model.specs.categories.Listed.{all_ends};
ghost use Rattle.fin_category.specs.Tables.{ending_at, ending_at_each};

use std::alloc::Global;
use topos_model::{NoMemory, RawCat, Row};

/// The ends of all arrows, the identities first, in the order of the objects.
pub fn all_ends(alloc: Global, raw: &RawCat) -> Result<Row<(u32, u32)>, NoMemory>
    ensures { IfOk result (λ ends. ends ≡ all_ends raw.now) }
{
    let mut ends = Row::new(alloc);
    for c in 0..raw.objects {
        ends.push((c, c))?;
    }
    for declared in raw.ends.as_slice() {
        ends.push(*declared)?;
    }
    Ok(ends)
}

// The arrows into c, in order.
#[tactic(auto, using(crate::proofs::Rows::ending_rules))]
fn row_into(alloc: Global, ends: &[(u32, u32)], c: u32) -> Result<Row<u32>, NoMemory>
    requires { length ends.now < 2 ^ 32 }
    ensures { IfOk result (λ row. row ≡ ending_at ends.now c) }
{
    let mut row = Row::new(alloc);
    for f in 0..ends.len() {
        if ends[f].1 == c {
            row.push(f as u32)?;
        }
    }
    Ok(row)
}

// The arrows into each object.
#[tactic(auto, using(crate::proofs::Rows::each_rules))]
pub(crate) fn rows_into(
    alloc: Global,
    objects: u32,
    ends: &[(u32, u32)],
) -> Result<Row<Row<u32>>, NoMemory>
    requires { length ends.now < 2 ^ 32 }
    ensures { IfOk result (λ rows. rows ≡ ending_at_each ends.now objects) }
{
    let mut rows = Row::new(alloc);
    for c in 0..objects {
        rows.push(row_into(alloc, ends, c)?)?;
    }
    Ok(rows)
}
