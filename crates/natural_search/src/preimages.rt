// For each arrow and each residue modulo 64 the numbers that a restriction takes to numbers with the residue.
ghost use Rattle.std.specs.Prelude.{◌≡◌, ◌<◌, ◌≤◌, ◌+◌, ◌*◌, ◌%◌, ◌^◌, ℕ, true, [], length, get_or, replicate, IfOk};
ghost use Rattle.natural_search.specs.Squares.{act};
ghost use Rattle.natural_search.specs.Domains.{allows, ArePreimages};

use crate::residues::with;
use std::alloc::Global;
use topos_model::{NoMemory, Row};

/// For each arrow and each residue modulo 64 a set with the numbers that the restriction takes to numbers with the residue.
#[derive(Drop)]
pub struct Preimages {
    pub(crate) masks: Vec<u64>,
}

// So many sets without numbers.
fn no_masks(alloc: Global, count: usize) -> Result<Vec<u64>, NoMemory>
    ensures { IfOk result (λ masks. masks.items ≡ replicate count 0) }
{
    let mut masks = Vec::new(alloc);
    masks.resize(count, 0)?;
    Ok(masks)
}

// Puts the numbers of a row into the sets of their images' residues, the first of which is at the start.
fn add_row(masks: &mut [u64], start: usize, row: &[u32])
    requires start { start + 64 ≤ length masks.old }
    ensures places { length masks.new ≡ length masks.old }
    ensures old { (i v : ℕ) → allows (get_or masks.old i 0) v ≡ true → allows (get_or masks.new i 0) v ≡ true }
    ensures row { (w : ℕ) → w < length row.now → allows (get_or masks.new (start + get_or row.now w 0 % 64) 0) w ≡ true }
{
    for w in 0..row.len() {
        let place = start + row[w] as usize % 64;
        masks[place] = with(masks[place], w);
    }
}

impl Preimages {
    /// Those of a table of restrictions, which has a row for each arrow.
    pub fn of(alloc: Global, along: &[Row<u32>]) -> Result<Preimages, NoMemory>
        requires few { length along.now < 2 ^ 32 }
        ensures { IfOk result (λ preimages. ArePreimages along.now preimages.masks.items) }
    {
        let mut masks = no_masks(alloc, along.len() * 64)?;
        for f in 0..along.len() {
            add_row(&mut masks, f * 64, along[f].as_slice());
        }
        Ok(Preimages { masks })
    }

    // The numbers that the restriction along the arrow takes to numbers with the residue.
    pub(crate) fn at(&self, along: &[Row<u32>], arrow: u32, residue: usize) -> u64
        requires preimages { ArePreimages along.now self.now.masks.items }
        requires arrow { arrow < length along.now }
        requires residue { residue < 64 }
        ensures { (w : ℕ) → w < length (get_or along.now arrow []) → act along.now arrow w % 64 ≡ residue → allows result w ≡ true }
    {
        // Of which table they are is a condition alone.
        let _ = along;
        self.masks[arrow as usize * 64 + residue]
    }
}
