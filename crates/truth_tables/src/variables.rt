// Variables, pairs and their parts, by the numbers of tuples: that of a pair is that of its first part times the width, and that of its second part.
ghost use Rattle.std.specs.Prelude.{◌≡◌, ◌<◌, ◌+◌, ◌*◌, ◌/◌, ◌%◌, ◌^◌, ℕ, [], length, get_or, IfOk};
ghost use Rattle.truth_tables.specs.Tables.{table, number, IsOver, HasWidths};

use crate::Numbers;
use crate::tables::{number, table};
use std::alloc::Global;
use topos_model::NoMemory;

/// The last variable of a context: the widths are the numbers of its values at each object.
pub fn last_variable(alloc: Global, sizes: &[u32], widths: &[u32]) -> Result<Numbers, NoMemory>
    requires objects { length sizes.now < 2 ^ 32 }
    requires widths { HasWidths sizes.now widths.now }
    ensures { IfOk result (λ numbers. numbers ≡ table sizes.now (λ c i. i % get_or widths.now c 0)) }
{
    table(alloc, sizes, |c, i| i % widths[c as usize])
}

/// A variable that stands before the last one, from its numbers over the outer context.
pub fn outer_variable(
    alloc: Global,
    sizes: &[u32],
    widths: &[u32],
    outer: &Numbers,
) -> Result<Numbers, NoMemory>
    requires objects { length sizes.now < 2 ^ 32 }
    requires widths { HasWidths sizes.now widths.now }
    requires outer { length outer.now ≡ length sizes.now }
    requires tuples { (c : ℕ) → c < length sizes.now → get_or sizes.now c 0 ≡ length (get_or outer.now c []) * get_or widths.now c 0 }
    ensures { IfOk result (λ numbers. numbers ≡ table sizes.now (λ c i. number outer.now c (i / get_or widths.now c 0))) }
{
    table(
        alloc,
        sizes,
        |c, i| number(outer, c, i / widths[c as usize]),
    )
}

/// The pairs of two tables of numbers. The widths are the numbers of second parts at each object.
pub fn pairs(
    alloc: Global,
    sizes: &[u32],
    widths: &[u32],
    first: &Numbers,
    second: &Numbers,
) -> Result<Numbers, NoMemory>
    requires objects { length sizes.now < 2 ^ 32 }
    requires widths { length widths.now ≡ length sizes.now }
    requires first { IsOver sizes.now first.now }
    requires second { IsOver sizes.now second.now }
    requires few { (c i : ℕ) → c < length sizes.now → i < get_or sizes.now c 0 → number first.now c i * get_or widths.now c 0 + number second.now c i < 2 ^ 32 }
    ensures { IfOk result (λ numbers. numbers ≡ table sizes.now (λ c i. number first.now c i * get_or widths.now c 0 + number second.now c i)) }
{
    table(
        alloc,
        sizes,
        |c, i| number(first, c, i) * widths[c as usize] + number(second, c, i),
    )
}

/// The first parts of pairs.
pub fn first_parts(
    alloc: Global,
    sizes: &[u32],
    widths: &[u32],
    pairs: &Numbers,
) -> Result<Numbers, NoMemory>
    requires objects { length sizes.now < 2 ^ 32 }
    requires widths { HasWidths sizes.now widths.now }
    requires pairs { IsOver sizes.now pairs.now }
    ensures { IfOk result (λ numbers. numbers ≡ table sizes.now (λ c i. number pairs.now c i / get_or widths.now c 0)) }
{
    table(
        alloc,
        sizes,
        |c, i| number(pairs, c, i) / widths[c as usize],
    )
}

/// The second parts of pairs.
pub fn second_parts(
    alloc: Global,
    sizes: &[u32],
    widths: &[u32],
    pairs: &Numbers,
) -> Result<Numbers, NoMemory>
    requires objects { length sizes.now < 2 ^ 32 }
    requires widths { HasWidths sizes.now widths.now }
    requires pairs { IsOver sizes.now pairs.now }
    ensures { IfOk result (λ numbers. numbers ≡ table sizes.now (λ c i. number pairs.now c i % get_or widths.now c 0)) }
{
    table(
        alloc,
        sizes,
        |c, i| number(pairs, c, i) % widths[c as usize],
    )
}
