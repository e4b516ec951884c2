// The number of a row among rows that rise.
ghost use Rattle.std.specs.Prelude.{◌≡◌, ◌<◌, ◌≤◌, ◌+◌, ◌*◌, ℕ, List, [], length, take, drop, get_or};
ghost use Rattle.finite_lists.specs.Members.{In};
ghost use Rattle.finite_lists.specs.Rising.{Rising, NumbersBelow};
ghost use Rattle.natural_search.specs.Rows.{AreRows, AreLong, IsCompared};

use crate::FoundRows;
use crate::halving::place_by;
use std::cmp::Ordering;

/// Which of two rows of one length stands before the other: the one with the lower number at the first place at which they differ.
pub fn compare_rows(row: &[u32], other: &[u32]) -> Ordering
    requires { length row.now ≡ length other.now }
    ensures { IsCompared row.now other.now result }
{
    'places: for i in 0..row.len() {
        if row[i] < other[i] {
            return Ordering::Less;
        }
        if other[i] < row[i] {
            return Ordering::Greater;
        }
    }
    Ordering::Equal
}

impl FoundRows {
    /// The number of a row among rows of one length that rise. Where it is not among them the number says nothing.
    pub fn number_of(&self, row: &[u32]) -> u64
        requires long { self.now.count * length row.now ≤ length self.now.numbers }
        ensures found { (all : List (List ℕ)) → AreRows all self.now → AreLong (length row.now) all → Rising NumbersBelow all → In all row.now → (result < length all) × (get_or all result [] ≡ row.now) }
    {
        place_by(
            self.count,
            |m|
                requires { m * length row.now + length row.now ≤ length self.now.numbers }
                ensures { IsCompared (take (length row.entry.now) (drop (m * length row.entry.now) self.entry.now.numbers)) row.entry.now result }
            { compare_rows(self.row(m, row.len()), row) },
        )
    }
}
