// Closure operators.
ghost use Rattle.std.specs.Prelude.{◌≡◌, ◌<◌, ℕ, true, false, length, get_or, slice_set, MatchOption};
ghost use Rattle.closed_sets.specs.Adding.{KeepsBefore, IsNewBefore};

use topos_model::Bits;

/// A closure operator on the sets of `len` places. A set is a list of truth values, one for each place.
pub trait Closing {
    ghost use Rattle.std.specs.Prelude.{ℕ, Bool, List};
    ghost use Rattle.closed_sets.specs.Closed.{IsClosure};

    ghost places: { Self → ℕ };

    ghost closure: { Self → List Bool → List Bool };

    /// How many places there are.
    fn len(&self) -> usize
        ensures { result ≡ places self.now };

    /// Leaves the set with its closure. It takes no memory.
    fn close(&self, set: &mut Bits)
        requires { length set.old ≡ places self.now }
        ensures { set.new ≡ closure self.now set.old };

    /// Puts a place into `set`, which is the closed set `last`, and closes it again. Where that brings a place before this one, it answers such a place, and leaves the set as it was.
    /// It takes no memory.
    fn add(&self, last: &Bits, place: usize, set: &mut Bits) -> Option<usize>
        requires places { length last.now ≡ places self.now }
        requires closed { closure self.now last.now ≡ last.now }
        requires same { set.old ≡ last.now }
        requires within { place < places self.now }
        requires new { get_or last.now place false ≡ false }
        ensures added { MatchOption result
            ((set.new ≡ closure self.now (slice_set last.now place true)) × KeepsBefore place last.now set.new)
            (λ k. (set.new ≡ last.now) × IsNewBefore place last.now (closure self.now (slice_set last.now place true)) k) }
    {
        set.set(place, true);
        self.close(set);
        match new_before(last, set, place) {
            None => None,
            Some(k) => {
                restore(last, 0, set);
                Some(k)
            }
        }
    }

    ghost is_closure: { (op : Self) → IsClosure (places op) (closure op) };
}

// A place before `end` that `next` has and `last` has not.
fn new_before(last: &Bits, next: &Bits, end: usize) -> Option<usize>
    requires last { end < length last.now }
    requires next { end < length next.now }
    ensures { MatchOption result (KeepsBefore end last.now next.now) (λ k. IsNewBefore end last.now next.now k) }
{
    for k in 0..end {
        if next.get(k) && !last.get(k) {
            return Some(k);
        }
    }
    None
}

/// Leaves `set`, which is as `last` before the place `from`, as `last`.
pub(crate) fn restore(last: &Bits, from: usize, set: &mut Bits)
    requires places { length set.old ≡ length last.now }
    requires before { (k : ℕ) → k < from → get_or set.old k false ≡ get_or last.now k false }
    ensures { set.new ≡ last.now }
{
    'places: for k in from..last.len() {
        set.set(k, last.get(k));
    }
}
