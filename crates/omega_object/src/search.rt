// The number of a set among sets that rise.
ghost use Rattle.std.specs.Prelude.{◌≡◌, ◌^◌, ◌<◌, [], length, map, get_or};
ghost use Rattle.finite_lists.specs.Members.{In};
ghost use Rattle.finite_lists.specs.Rising.{Rising};
ghost use Rattle.fin_category.specs.ArrowSets.{arrows_in};
ghost use Rattle.omega_object.specs.TruthValues.{Precedes};

use fin_category::ArrowMask;

/// The number of a set among sets that rise in the order "without, then with". Where it is not among them the number says nothing.
pub(crate) fn number_among(rows: &[ArrowMask], set: ArrowMask) -> u32
    requires { length rows.now < 2 ^ 32 }
    ensures found { Rising Precedes (map arrows_in rows.now) → In (map arrows_in rows.now) (arrows_in set) → (result < length rows.now) × (get_or (map arrows_in rows.now) result [] ≡ arrows_in set) }
{
    let mut low = 0;
    let mut high = rows.len();
    'halves: while low < high {
        let middle = low + (high - low) / 2;
        match rows[middle].first_difference(set) {
            None => return middle as u32,
            Some(f) => {
                if set.contains(f) {
                    low = middle + 1;
                } else {
                    high = middle;
                }
            }
        }
    }
    0
}
