// Halving.
ghost use Rattle.std.specs.Prelude.{ℕ, ◌<◌, ◌≤◌, ◌≡◌};
ghost use Rattle.std.specs.declared.cmp.Ordering.{Ordering};
ghost use Rattle.natural_search.specs.Rows.{IsPlaced};

use std::cmp::Ordering;

/// The place among so many at which an order answers `Equal`, found by halving: below it the order answers `Less`, and above it `Greater`. Where there is no such place
/// the number says nothing.
pub fn place_by<F: Fn(u64) -> Ordering>(count: u64, order: F) -> u64
    requires { (m : ℕ) → m < count → F.pre order m }
    ensures within { result ≤ count }
    ensures place { (n : ℕ) → n < count → ((m : ℕ) (answer : Ordering) → m < count → F.post order m answer → IsPlaced m n answer) → result ≡ n }
{
    let mut low = 0;
    let mut high = count;
    'halves: while low < high {
        let middle = low + (high - low) / 2;
        match order(middle) {
            Ordering::Less => low = middle + 1,
            Ordering::Equal => return middle,
            Ordering::Greater => high = middle,
        }
    }
    0
}
