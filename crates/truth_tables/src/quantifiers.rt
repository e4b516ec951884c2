// Quantifiers over the last variable.
ghost use Rattle.std.specs.Prelude.{◌≡◌, ◌<◌, ◌*◌, ◌^◌, ℕ, [], length, get_or, IfOk};
ghost use Rattle.std.specs.List.{count_by};
ghost use Rattle.truth_tables.specs.Tables.{table, block, decided};

use crate::Truths;
use crate::tables::{block, table};
use std::alloc::Global;
use topos_model::NoMemory;

/// A condition on the truth values at the elements of a type.
#[derive(Clone, Copy, Drop)]
pub enum Quantifier {
    Some,
    Every,
    One,
}

// How many of the values are true.
fn count(truths: &[bool]) -> usize
    ensures { result ≡ count_by (λ truth. truth) truths.now }
{
    let mut count = 0;
    for truth in truths {
        if *truth {
            count += 1;
        }
    }
    count
}

impl Quantifier {
    fn decides(self, truths: &[bool]) -> bool
        ensures { result ≡ decided self truths.now }
    {
        match self {
            Quantifier::Some => truths.contains(&true),
            Quantifier::Every => !truths.contains(&false),
            Quantifier::One => count(truths) == 1,
        }
    }
}

/// At each tuple whether the truth values meet the quantifier of the tuples that put one element behind it. The widths are the numbers of these elements at each object.
pub fn quantify(
    alloc: Global,
    quantifier: Quantifier,
    sizes: &[u32],
    widths: &[u32],
    body: &Truths,
) -> Result<Truths, NoMemory>
    requires objects { length sizes.now < 2 ^ 32 }
    requires widths { length widths.now ≡ length sizes.now }
    requires body { length body.now ≡ length sizes.now }
    requires tuples { (c : ℕ) → c < length sizes.now → length (get_or body.now c []) ≡ get_or sizes.now c 0 * get_or widths.now c 0 }
    ensures { IfOk result (λ truths. truths ≡ table sizes.now (λ c i. decided quantifier (block (get_or widths.now c 0) i (get_or body.now c [])))) }
{
    table(alloc, sizes, |c, i| {
        quantifier.decides(block(widths[c as usize], i, body.row(c)))
    })
}
