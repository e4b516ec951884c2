// The operations on truth values.
ghost use Rattle.std.specs.Prelude.{◌≡◌, ◌^◌, ◌<◌, ◌≤◌, ℕ, [], length, map, filter, get_or};
ghost use Rattle.finite_lists.specs.Members.{In};
ghost use Rattle.topos_model.specs.categories.Category.{has, into};
ghost use Rattle.topos_model.specs.topologies.Cover.{contains};
ghost use Rattle.topos_model.specs.statements.Form.{max_arrows};
ghost use Rattle.topos_model.specs.topologies.LeastCovers.{closure};
ghost use Rattle.topos_model.specs.topologies.TopologyFaults.{intersection};
ghost use Rattle.fin_category.specs.ArrowSets.{arrows_in};
ghost use Rattle.fin_category.specs.Masks.{union, all_added};

use crate::search::number_among;
use fin_category::ArrowMask;
use topos_model::Row;

/// The truth values of a site: for each object its closed sieves in order, number k standing for the k-th. Beside them stand the arrows into each object, and for
/// each arrow its composites with all arrows before it, and with those of the least cover of its domain. It holds no site: that it is of one is a condition and a
/// promise of the calls.
#[derive(Drop)]
pub struct Omega {
    pub(crate) sieves: Row<Row<ArrowMask>>,
    pub(crate) into: Row<ArrowMask>,
    pub(crate) below: Row<ArrowMask>,
    pub(crate) covers: Row<ArrowMask>,
    ghost few: { (c : ℕ) → length (get_or sieves c []) < 2 ^ 32 },
}

impl Omega {
    ghost use Rattle.topos_model.specs.topologies.Cover.{Site};
    ghost use Rattle.omega_object.specs.TruthValues.{IsNumber, closed_sieves, sieve_at, implication};
    ghost use Rattle.omega_object.specs.Tables.{IsOmegaOn, IsInRange, mask_at, rows_at};

    /// The arrows of the closed sieve number k on c.
    pub fn sieve(&self, c: u32, k: u32) -> ArrowMask
        requires object { c < length self.now.sieves }
        requires number { k < length (rows_at self.now c) }
        ensures { arrows_in result ≡ mask_at (rows_at self.now c) k }
    {
        *self.sieves.get(c as usize).get(k as usize)
    }

    /// How many closed sieves there are on c.
    pub fn count(&self, c: u32) -> u32
        requires object { c < length self.now.sieves }
        ensures { result ≡ length (rows_at self.now c) }
    {
        self.sieves.get(c as usize).len() as u32
    }

    /// The number of a closed sieve on c.
    pub fn number(&self, c: u32, sieve: ArrowMask) -> u32
        requires object { c < length self.now.sieves }
        ensures { (s : Site) → IsOmegaOn s self.now → In (closed_sieves s c) (arrows_in sieve) → IsNumber s c result (arrows_in sieve) }
    {
        number_among(self.sieves.get(c as usize).as_slice(), sieve)
    }

    // The arrows into c that go into a set along the least cover of their domains.
    fn closed(&self, c: u32, set: ArrowMask) -> ArrowMask
        requires object { c < length self.now.into }
        requires arrows { (f : ℕ) → In (mask_at self.now.into c) f → f < length self.now.covers }
        ensures { arrows_in result ≡ all_added [] (filter (λ f. contains (mask_at self.now.covers f) (arrows_in set)) (mask_at self.now.into c)) }
    {
        let mut closed = ArrowMask::empty();
        for f in self.into.get(c as usize).iter() {
            if self.covers.get(f as usize).is_within(set) {
                closed.insert(f);
            }
        }
        closed
    }

    // The arrows into c whose composites in the first set are in the second.
    fn implied(&self, c: u32, first: ArrowMask, second: ArrowMask) -> ArrowMask
        requires object { c < length self.now.into }
        requires arrows { (f : ℕ) → In (mask_at self.now.into c) f → f < length self.now.below }
        ensures { arrows_in result ≡ all_added [] (filter (λ f. contains (intersection (mask_at self.now.below f) (arrows_in first)) (arrows_in second)) (mask_at self.now.into c)) }
    {
        let mut implied = ArrowMask::empty();
        for f in self.into.get(c as usize).iter() {
            if self.below.get(f as usize).meet(first).is_within(second) {
                implied.insert(f);
            }
        }
        implied
    }

    /// The sieve of the arrows of both.
    pub fn meet(&self, c: u32, a: u32, b: u32) -> u32
        requires object { c < length self.now.sieves }
        requires first { a < length (rows_at self.now c) }
        requires second { b < length (rows_at self.now c) }
        ensures { (s : Site) → IsOmegaOn s self.now → IsNumber s c result (intersection (sieve_at s c a) (sieve_at s c b)) }
    {
        self.number(c, self.sieve(c, a).meet(self.sieve(c, b)))
    }

    /// The closure of the arrows of either.
    pub fn join(&self, c: u32, a: u32, b: u32) -> u32
        requires object { c < length self.now.sieves }
        requires first { a < length (rows_at self.now c) }
        requires second { b < length (rows_at self.now c) }
        requires site { IsInRange self.now c }
        ensures { (s : Site) → IsOmegaOn s self.now → IsNumber s c result (closure s c (union (sieve_at s c a) (sieve_at s c b))) }
    {
        let both = self.sieve(c, a).union(self.sieve(c, b));
        self.number(c, self.closed(c, both))
    }

    /// The arrows along which the first sieve pulls back within the second.
    pub fn implies(&self, c: u32, a: u32, b: u32) -> u32
        requires object { c < length self.now.sieves }
        requires first { a < length (rows_at self.now c) }
        requires second { b < length (rows_at self.now c) }
        requires site { IsInRange self.now c }
        ensures { (s : Site) → IsOmegaOn s self.now → IsNumber s c result (implication s.category c (sieve_at s c a) (sieve_at s c b)) }
    {
        let implied = self.implied(c, self.sieve(c, a), self.sieve(c, b));
        self.number(c, implied)
    }

    /// The closure of the empty sieve.
    pub fn least(&self, c: u32) -> u32
        requires object { c < length self.now.sieves }
        requires site { IsInRange self.now c }
        ensures { (s : Site) → IsOmegaOn s self.now → IsNumber s c result (closure s c []) }
    {
        self.number(c, self.closed(c, ArrowMask::empty()))
    }

    /// The sieve of all arrows.
    pub fn greatest(&self, c: u32) -> u32
        requires object { c < length self.now.sieves }
        requires site { IsInRange self.now c }
        ensures { (s : Site) → IsOmegaOn s self.now → IsNumber s c result (into s.category c) }
    {
        self.number(c, *self.into.get(c as usize))
    }

    /// Whether the sieve has the identity.
    pub fn holds(&self, c: u32, k: u32) -> bool
        requires object { c < length self.now.sieves }
        requires number { k < length (rows_at self.now c) }
        requires few { c < max_arrows }
        ensures { (s : Site) → IsOmegaOn s self.now → result ≡ has c (sieve_at s c k) }
    {
        self.sieve(c, k).contains(c)
    }
}
