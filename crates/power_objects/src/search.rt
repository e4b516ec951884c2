// The number of a set among sets that rise.
ghost use Rattle.std.specs.Prelude.{◌≡◌, ℕ, ◌^◌, ◌<◌, [], length, get_or, MatchOption};
ghost use Rattle.finite_lists.specs.Members.{In};
ghost use Rattle.finite_lists.specs.Rising.{Rising};
ghost use Rattle.power_objects.specs.BitOrder.{Precedes, IsOrdered, read_along, place_in};

use topos_model::Bits;

// Where a set differs from another that is read along a row: what the other has at the first such place.
fn first_difference(set: &Bits, other: &Bits, along: &[u32]) -> Option<bool>
    requires places { length set.now ≡ length along.now }
    requires within { (i : ℕ) → i < length along.now → get_or along.now i 0 < length other.now }
    ensures ordered { MatchOption result (set.now ≡ read_along along.now other.now) (λ has. IsOrdered has set.now (read_along along.now other.now)) }
{
    for i in 0..along.len() {
        let has = other.get(along[i] as usize);
        if set.get(i) != has {
            return Some(has);
        }
    }
    None
}

/// The number, among sets that rise, of a set that is read along a row. Where it is not among them the number says nothing.
pub(crate) fn number_of(sets: &[Bits], other: &Bits, along: &[u32]) -> u32
    requires few { length sets.now < 2 ^ 32 }
    requires places { (i : ℕ) → i < length sets.now → length (get_or sets.now i []) ≡ length along.now }
    requires within { (i : ℕ) → i < length along.now → get_or along.now i 0 < length other.now }
    ensures found { Rising Precedes sets.now → In sets.now (read_along along.now other.now) → result ≡ place_in sets.now (read_along along.now other.now) }
{
    let mut low = 0;
    let mut high = sets.len();
    'halves: while low < high {
        let middle = low + (high - low) / 2;
        match first_difference(&sets[middle], other, along) {
            None => return middle as u32,
            Some(has) => {
                if has {
                    low = middle + 1;
                } else {
                    high = middle;
                }
            }
        }
    }
    0
}
