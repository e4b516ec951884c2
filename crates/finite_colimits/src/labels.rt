// Labels that sink to the least number of each class. A label leads to a lesser member of the class, and the way is halved whenever it is gone.
ghost use Rattle.std.specs.Prelude.{◌≡◌, ◌<◌, ◌^◌, ℕ, length, get_or, IfOk};
ghost use Rattle.std.specs.List.{range_with_len};
ghost use Rattle.finite_colimits.specs.Labels.{AreLow, AreShorter, IsRoot, AreJoined, HaveClasses};

use std::alloc::Global;
use topos_model::NoMemory;

// The number that is its own label to which the labels lead from y.
fn root(labels: &mut [u32], y: u32) -> u32
    requires number { y < length labels.old }
    requires low { AreLow labels.old }
    ensures root { IsRoot labels.new y result }
    ensures shorter { AreShorter labels.old labels.new }
{
    let mut at = y;
    'way: while labels[at as usize] != at {
        let next = labels[labels[at as usize] as usize];
        labels[at as usize] = next;
        at = next;
    }
    at
}

// Makes one class of those of a and b.
fn join(labels: &mut [u32], a: u32, b: u32)
    requires first { a < length labels.old }
    requires second { b < length labels.old }
    requires low { AreLow labels.old }
    ensures { AreJoined labels.old labels.new a b }
{
    let first = root(labels, a);
    let second = root(labels, b);
    if first < second {
        labels[second as usize] = first;
    } else {
        labels[first as usize] = second;
    }
}

// Joins the members of each pair.
fn join_all(labels: &mut [u32], m: &[u32], n: &[u32])
    requires paired { length n.now ≡ length m.now }
    requires first { (x : ℕ) → x < length m.now → get_or m.now x 0 < length labels.old }
    requires second { (x : ℕ) → x < length m.now → get_or n.now x 0 < length labels.old }
    requires own { labels.old ≡ range_with_len 0 (length labels.old) }
    ensures { HaveClasses (length m.now) m.now n.now (length labels.old) labels.new }
{
    for x in 0..m.len() {
        join(labels, m[x], n[x]);
    }
}

// Each number below the count, as its own label.
fn own_labels(alloc: Global, count: u32) -> Result<Vec<u32>, NoMemory>
    ensures { IfOk result (λ labels. labels.items ≡ range_with_len 0 count) }
{
    let mut labels = Vec::new(alloc);
    for y in 0..count {
        match labels.push(y) {
            Ok(_) => {}
            Err(_) => return Err(NoMemory),
        }
    }
    Ok(labels)
}

// Labels of the numbers below the count that have the classes of the pairs.
pub(crate) fn labels_of(
    alloc: Global,
    m: &[u32],
    n: &[u32],
    count: u32,
) -> Result<Vec<u32>, NoMemory>
    requires paired { length n.now ≡ length m.now }
    requires first { (x : ℕ) → x < length m.now → get_or m.now x 0 < count }
    requires second { (x : ℕ) → x < length m.now → get_or n.now x 0 < count }
    ensures { IfOk result (λ labels. HaveClasses (length m.now) m.now n.now count labels.items) }
{
    let mut labels = own_labels(alloc, count)?;
    join_all(&mut labels, m, n);
    Ok(labels)
}
