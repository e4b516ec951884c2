// Rows of places, turned round.
ghost use Rattle.std.specs.Prelude.{◌≡◌, ◌<◌, ◌^◌, ℕ, length, IfOk};
ghost use Rattle.place_closures.specs.Passes.{AreTurned, Has};

use std::alloc::Global;
use topos_model::{NoMemory, Row};

// So many rows with nothing in them.
fn no_rows(alloc: Global, count: usize) -> Result<Vec<Row<u32>>, NoMemory>
    ensures count { IfOk result (λ rows. length rows.items ≡ count) }
    ensures none { IfOk result (λ rows. (i j : ℕ) → Has rows.items i j → ⊥) }
{
    let mut rows = Vec::new(alloc);
    'rows: for _ in 0..count {
        if rows.push(Row::new(alloc)).is_err() {
            return Err(NoMemory);
        }
    }
    Ok(rows)
}

/// For each place those whose row has it.
pub(crate) fn turned(alloc: Global, rows: &[Row<u32>]) -> Result<Vec<Row<u32>>, NoMemory>
    requires within { (i j : ℕ) → Has rows.now i j → j < length rows.now }
    requires few { length rows.now < 2 ^ 32 }
    ensures { IfOk result (λ turned. AreTurned rows.now turned.items) }
{
    let mut turned = no_rows(alloc, rows.len())?;
    'rows: for i in 0..rows.len() {
        for j in rows[i].as_slice() {
            turned[*j as usize].push(i as u32)?;
        }
    }
    Ok(turned)
}
