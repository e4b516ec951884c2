// Lists of numbers, and rows at the end of an arena.
ghost use Rattle.std.specs.Prelude.{◌≡◌, ℕ, ◌+◌, ◌^◌, ◌<◌, ◌≤◌, [], ◌∷◌, ◌++◌, length, get_or, replicate, IfOk, OnErr};
ghost use Rattle.std.specs.List.{sum_by};
ghost use Rattle.functor_store.specs.Groups.{start, IsFilled};

use row_arena::RowArena;
use std::alloc::Global;
use topos_model::NoMemory;

// The number so many times.
pub(crate) fn filled(alloc: Global, len: usize, number: u32) -> Result<Vec<u32>, NoMemory>
    ensures items { IfOk result (λ numbers. numbers.items ≡ replicate len number) }
{
    let mut numbers = Vec::new(alloc);
    numbers.resize(len, number)?;
    Ok(numbers)
}

// All numbers from one place to another are the number.
pub(crate) fn fill(numbers: &mut [u32], from: usize, to: usize, number: u32)
    requires within { to ≤ length numbers.old }
    ensures filled { IsFilled from to number numbers.old numbers.new }
{
    for i in from..to {
        numbers[i] = number;
    }
}

// Where the group c begins.
pub(crate) fn start_of(base: u32, ends: &[u32], c: usize) -> u32
    requires within { c ≤ length ends.now }
    ensures start { result ≡ start base ends.now c }
{
    if c == 0 { base } else { ends[c - 1] }
}

// Puts a row last, and gives its place.
pub(crate) fn append_row(arena: &mut RowArena, row: &[u32]) -> Result<u32, NoMemory>
    requires few_rows { length arena.old.rows + 1 < 2 ^ 32 }
    requires few_cells { sum_by length arena.old.rows + length row.now < 2 ^ 40 }
    ensures rows { IfOk result (λ _. arena.new.rows ≡ arena.old.rows ++ row.now ∷ []) }
    ensures place { IfOk result (λ place. place ≡ length arena.old.rows) }
    ensures err { OnErr result (arena.new.rows ≡ arena.old.rows) }
{
    arena.reserve(1, row.len())?;
    Ok(arena.append(row))
}
