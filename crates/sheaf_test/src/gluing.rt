// The amalgamations of a family, one after another.
ghost use Rattle.std.specs.Prelude.{◌≡◌, ◌<◌, ◌+◌, ◌^◌, ℕ, [], ◌∷◌, length, MatchOption};
ghost use Rattle.std.specs.Option.{option_map};
ghost use Rattle.finite_lists.specs.Rising.{Rising};
ghost use Rattle.topos_model.specs.Laws.{size};
ghost use Rattle.sheaf_test.specs.Amalgamations.{restricts_to, amalgamations_from, fault_with, fault_of, AreRestrictedAlong};

use presheaf_core::Functor;

// The first two amalgamations, or none.
pub(crate) type Found = Option<(u32, u32)>;

// Whether an element restricts to the family along each arrow of the sieve.
fn restricts_to(x: &Functor, arrows: &[u32], family: &[u32], element: u32) -> bool
    requires arrows { AreRestrictedAlong x.now arrows.now element }
    requires rises { Rising (λ m n. m < n) arrows.now }
    requires family { length family.now ≡ length arrows.now }
    ensures { result ≡ restricts_to x.now arrows.now family.now element }
{
    for i in 0..arrows.len() {
        if x.restrict(arrows[i], element) != family[i] {
            return false;
        }
    }
    true
}

// The first amalgamation from an element on.
fn next_amalgamation(x: &Functor, c: u32, arrows: &[u32], family: &[u32], start: u32) -> Option<u32>
    requires object { c < length x.now.sizes }
    requires arrows { (y : ℕ) → y < size x.now c → AreRestrictedAlong x.now arrows.now y }
    requires rises { Rising (λ m n. m < n) arrows.now }
    requires family { length family.now ≡ length arrows.now }
    ensures list { MatchOption result (amalgamations_from x.now c arrows.now family.now start ≡ []) (λ y. amalgamations_from x.now c arrows.now family.now start ≡ y ∷ amalgamations_from x.now c arrows.now family.now (y + 1)) }
    ensures few { MatchOption result (Unit {0}) (λ y. y + 1 < 2 ^ 32) }
{
    for y in start..x.size(c) {
        if restricts_to(x, arrows, family, y) {
            return Some(y);
        }
    }
    None
}

// Where a family has not exactly one amalgamation: none, or the first two.
pub(crate) fn unless_one(x: &Functor, c: u32, arrows: &[u32], family: &[u32]) -> Option<Found>
    requires object { c < length x.now.sizes }
    requires arrows { (y : ℕ) → y < size x.now c → AreRestrictedAlong x.now arrows.now y }
    requires rises { Rising (λ m n. m < n) arrows.now }
    requires family { length family.now ≡ length arrows.now }
    ensures { option_map (fault_with c arrows.now family.now) result ≡ fault_of x.now c arrows.now family.now }
{
    match next_amalgamation(x, c, arrows, family, 0) {
        None => Some(None),
        Some(y) => match next_amalgamation(x, c, arrows, family, y + 1) {
            None => None,
            Some(z) => Some(Some((y, z))),
        },
    }
}
