// Classes of the numbers below a count under pairs, numbered in the order of their least members.
ghost use Rattle.std.specs.Prelude.{◌≡◌, ◌<◌, ◌^◌, ℕ, length, get_or, IfOk};
ghost use Rattle.finite_colimits.specs.Labels.{AreLow, AreNumbered};
ghost use Rattle.finite_colimits.specs.Classes.{IsClasses};

use crate::labels::labels_of;
use std::alloc::Global;
use topos_model::{NoMemory, Row};

// The class of each number, and the least member of each class.
fn numbered(alloc: Global, labels: &[u32]) -> Result<(Row<u32>, Row<u32>), NoMemory>
    requires few { length labels.now < 2 ^ 32 }
    requires low { AreLow labels.now }
    ensures { IfOk result (λ classes. AreNumbered labels.now (length labels.now) classes.0 classes.1) }
{
    let mut numbers = Row::new(alloc);
    let mut least = Row::new(alloc);
    for y in 0..labels.len() {
        let label = labels[y];
        if label == y as u32 {
            numbers.push(least.len() as u32)?;
            least.push(label)?;
        } else {
            let number = *numbers.get(label as usize);
            numbers.push(number)?;
        }
    }
    Ok((numbers, least))
}

// The class of each number below the count under the pairs, and the least member of each class.
pub(crate) fn classes(
    alloc: Global,
    m: &[u32],
    n: &[u32],
    count: u32,
) -> Result<(Row<u32>, Row<u32>), NoMemory>
    requires paired { length n.now ≡ length m.now }
    requires first { (x : ℕ) → x < length m.now → get_or m.now x 0 < count }
    requires second { (x : ℕ) → x < length m.now → get_or n.now x 0 < count }
    ensures { IfOk result (λ classes. IsClasses m.now n.now count classes.0 classes.1) }
{
    let labels = labels_of(alloc, m, n, count)?;
    numbered(alloc, &labels)
}
