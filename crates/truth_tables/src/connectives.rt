// Connectives, and equality.
ghost use Rattle.std.specs.Prelude.{◌≡◌, ◌<◌, ◌^◌, length, get_or, eqb, cond, false, IfOk};
ghost use Rattle.topos_model.specs.certificates.CertificateNodes.{same_truth};
ghost use Rattle.truth_tables.specs.Tables.{table, bit, number, connected, IsOver};

use crate::tables::{bit, number, table};
use crate::{Numbers, Truths};
use std::alloc::Global;
use topos_model::NoMemory;

/// A connective that is decided at each tuple by itself.
#[derive(Clone, Copy, Drop)]
pub enum Connective {
    And,
    Or,
    Implies,
}

impl Connective {
    fn connects(self, left: bool, right: bool) -> bool
        ensures { result ≡ connected self left right }
    {
        match self {
            Connective::And => left && right,
            Connective::Or => left || right,
            Connective::Implies => !left || right,
        }
    }
}

/// The connective at each tuple.
pub fn combine(
    alloc: Global,
    connective: Connective,
    sizes: &[u32],
    left: &Truths,
    right: &Truths,
) -> Result<Truths, NoMemory>
    requires objects { length sizes.now < 2 ^ 32 }
    requires left { IsOver sizes.now left.now }
    requires right { IsOver sizes.now right.now }
    ensures { IfOk result (λ truths. truths ≡ table sizes.now (λ c i. connected connective (bit left.now c i) (bit right.now c i))) }
{
    table(
        alloc,
        sizes,
        |c, i| connective.connects(bit(left, c, i), bit(right, c, i)),
    )
}

/// Where two tables of truth values agree.
pub fn agreeing(
    alloc: Global,
    sizes: &[u32],
    left: &Truths,
    right: &Truths,
) -> Result<Truths, NoMemory>
    requires objects { length sizes.now < 2 ^ 32 }
    requires left { IsOver sizes.now left.now }
    requires right { IsOver sizes.now right.now }
    ensures { IfOk result (λ truths. truths ≡ table sizes.now (λ c i. same_truth (bit left.now c i) (bit right.now c i))) }
{
    table(alloc, sizes, |c, i| bit(left, c, i) == bit(right, c, i))
}

/// Where two tables of numbers agree.
pub fn equal(
    alloc: Global,
    sizes: &[u32],
    left: &Numbers,
    right: &Numbers,
) -> Result<Truths, NoMemory>
    requires objects { length sizes.now < 2 ^ 32 }
    requires left { IsOver sizes.now left.now }
    requires right { IsOver sizes.now right.now }
    ensures { IfOk result (λ truths. truths ≡ table sizes.now (λ c i. eqb (number left.now c i) (number right.now c i))) }
{
    table(
        alloc,
        sizes,
        |c, i| number(left, c, i) == number(right, c, i),
    )
}

/// One truth value for all tuples of an object.
pub fn constant(alloc: Global, sizes: &[u32], values: &[bool]) -> Result<Truths, NoMemory>
    requires objects { length sizes.now < 2 ^ 32 }
    requires values { length values.now ≡ length sizes.now }
    ensures { IfOk result (λ truths. truths ≡ table sizes.now (λ c i. get_or values.now c false)) }
{
    table(alloc, sizes, |c, _| values[c as usize])
}

/// The numbers 1 and 0 for the truth values: those of the characteristic function.
pub fn indicators(alloc: Global, sizes: &[u32], truths: &Truths) -> Result<Numbers, NoMemory>
    requires objects { length sizes.now < 2 ^ 32 }
    requires truths { IsOver sizes.now truths.now }
    ensures { IfOk result (λ numbers. numbers ≡ table sizes.now (λ c i. cond (bit truths.now c i) 1 0)) }
{
    table(alloc, sizes, |c, i| u32::from(bit(truths, c, i)))
}
