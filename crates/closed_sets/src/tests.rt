ghost use Rattle.std.specs.Prelude.{◌≡◌, ℕ, ◌<◌, false, length, get_or};
ghost use Rattle.closed_sets.specs.Ideals.{is_below_some, is_subset};
ghost use Rattle.closed_sets.specs.Parts.{is_part_of_some, pair_parts};

use crate::{ClosedListing, Closing, list_closed};
use std::test::Fail;
use topos_model::Bits;

/// The order ideals of the subsets of five points, which go by their bits: with a set all its subsets.
#[derive(Drop)]
struct Ideals;

// The values of a set of 32 places.
fn values(set: &Bits) -> [bool; 32]
    requires { length set.now ≡ 32 }
    ensures { result ≡ set.now }
{
    let mut values = [false; 32];
    for k in 0..32 {
        values[k] = set.get(k);
    }
    values
}

// Whether k is a subset of some member.
fn is_below_some(values: &[bool], k: usize) -> bool
    ensures { result ≡ is_below_some is_subset k 0 values.now }
{
    for j in 0..values.len() {
        if values[j] && k & j == k {
            return true;
        }
    }
    false
}

impl Closing for Ideals {
    ghost use Rattle.closed_sets.specs.Ideals.{lowered, is_subset};
    ghost use Rattle.closed_sets.specs.IdealLaws.{subsets_closure};

    ghost places = { λ _. 32 };

    ghost closure = { λ _. lowered is_subset };

    ghost is_closure = { λ _. subsets_closure 32 };

    fn len(&self) -> usize {
        32
    }

    fn close(&self, set: &mut Bits) {
        let values = values(set);
        for k in 0..32 {
            set.set(k, is_below_some(&values, k));
        }
    }
}

/// There are 7,581 of them, the empty one first and all subsets last.
#[test]
fn order_ideals_of_five_points(rt: HostRuntime) -> Result<(), Fail> {
    let listing = list_closed(rt.alloc(), &Ideals, 7581)?;
    if let ClosedListing::All(rows) = &listing {
        assert_eq!(rt; rows.len(), 7581);
    } else {
        assert!(rt; false);
    }
    let over = list_closed(rt.alloc(), &Ideals, 7580)?;
    assert!(rt; matches!(&over, ClosedListing::Over));
    Ok(())
}

/// Fourteen places, and then one for each pair of one of the first seven and one of the others: with a pair a set has both of its
/// places, and with both places the pair.
#[derive(Drop)]
struct Pairs;

// The two parts of a place: its places for a pair, and itself for one of the first fourteen.
fn parts(k: usize) -> (usize, usize)
    requires { k < 63 }
    ensures value { result ≡ pair_parts k }
    ensures within { (result.0 < 14) × (result.1 < 14) }
{
    if k < 14 {
        (k, k)
    } else {
        ((k - 14) / 7, 7 + (k - 14) % 7)
    }
}

// Which of the fourteen are parts of places of a set.
fn present(set: &Bits) -> [bool; 14]
    requires { length set.now ≡ 63 }
    ensures { (u : ℕ) → u < 14 → get_or result u false ≡ is_part_of_some pair_parts u set.now }
{
    let mut present = [false; 14];
    for k in 0..63 {
        if set.get(k) {
            let (left, right) = parts(k);
            present[left] = true;
            present[right] = true;
        }
    }
    present
}

impl Closing for Pairs {
    ghost use Rattle.closed_sets.specs.Parts.{completed, pair_parts};
    ghost use Rattle.closed_sets.specs.PartLaws.{completed_closure};

    ghost places = { λ _. 63 };

    ghost closure = { λ _. completed pair_parts };

    ghost is_closure = { λ _. completed_closure pair_parts 63 };

    fn len(&self) -> usize {
        63
    }

    fn close(&self, set: &mut Bits) {
        let present = present(set);
        for k in 0..63 {
            let (left, right) = parts(k);
            set.set(k, present[left] & present[right]);
        }
    }
}

/// They go by their first fourteen places.
#[test]
fn closed_sets_of_places_and_pairs(rt: HostRuntime) -> Result<(), Fail> {
    let listing = list_closed(rt.alloc(), &Pairs, 16384)?;
    if let ClosedListing::All(rows) = &listing {
        assert_eq!(rt; rows.len(), 16384);
    } else {
        assert!(rt; false);
    }
    let over = list_closed(rt.alloc(), &Pairs, 16383)?;
    assert!(rt; matches!(&over, ClosedListing::Over));
    Ok(())
}
