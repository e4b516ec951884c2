// Sets of arrows.
ghost use Rattle.std.specs.Prelude.{◌≡◌, ◌<◌, [], ◌∷◌, length, MatchOption};
ghost use Rattle.topos_model.specs.categories.Category.{has};
ghost use Rattle.topos_model.specs.topologies.Cover.{contains};
ghost use Rattle.topos_model.specs.statements.Form.{max_arrows};
ghost use Rattle.topos_model.specs.topologies.TopologyFaults.{intersection};
ghost use Rattle.fin_category.specs.Masks.{union, added, IsFirstDifference};
ghost use Rattle.fin_category.specs.ArrowSets.{arrows_in, left_in};

use crate::ArrowIter;
use std::alloc::Global;
use topos_model::{Copied, NoMemory};

/// A set of arrow numbers below 512, as bits. Contracts see the list of its members, in rising order, as `arrows_in`.
#[derive(Clone, Copy)]
pub struct ArrowMask {
    words: [u64; 8],
}

impl ArrowMask {
    /// The set without a member.
    pub fn empty() -> ArrowMask
        ensures { arrows_in result ≡ [] }
    {
        ArrowMask { words: [0; 8] }
    }

    /// The set of one arrow.
    pub fn one(f: u32) -> ArrowMask
        requires { f < max_arrows }
        ensures { arrows_in result ≡ f ∷ [] }
    {
        let mut mask = ArrowMask::empty();
        mask.insert(f);
        mask
    }

    /// Puts an arrow into the set.
    pub fn insert(&mut self, f: u32)
        requires { f < max_arrows }
        ensures { arrows_in self.new ≡ added f (arrows_in self.old) }
    {
        self.words[f as usize / 64] |= 1 << (f % 64);
    }

    /// The arrows of either set.
    pub fn union(self, o: ArrowMask) -> ArrowMask
        ensures { arrows_in result ≡ union (arrows_in self) (arrows_in o) }
    {
        let mut words = self.words;
        for i in 0..8 {
            words[i] |= o.words[i];
        }
        ArrowMask { words }
    }

    /// The arrows of both sets.
    pub fn meet(self, o: ArrowMask) -> ArrowMask
        ensures { arrows_in result ≡ intersection (arrows_in self) (arrows_in o) }
    {
        let mut words = self.words;
        for i in 0..8 {
            words[i] &= o.words[i];
        }
        ArrowMask { words }
    }

    /// Whether an arrow is in the set.
    pub fn contains(self, f: u32) -> bool
        requires { f < max_arrows }
        ensures { result ≡ has f (arrows_in self) }
    {
        self.words[f as usize / 64] >> (f % 64) & 1 == 1
    }

    /// Whether the other set has each arrow of this one.
    pub fn is_within(self, o: ArrowMask) -> bool
        ensures { result ≡ contains (arrows_in self) (arrows_in o) }
    {
        for i in 0..8 {
            if self.words[i] & o.words[i] != self.words[i] {
                return false;
            }
        }
        true
    }

    /// The first arrow that one of the sets has and the other has not, where there is one.
    pub fn first_difference(self, o: ArrowMask) -> Option<u32>
        ensures { MatchOption result (arrows_in self ≡ arrows_in o) (λ f. IsFirstDifference f (arrows_in self) (arrows_in o)) }
    {
        for i in 0..8 {
            let word = self.words[i] ^ o.words[i];
            if word != 0 {
                return Some(i as u32 * 64 + word.trailing_zeros());
            }
        }
        None
    }

    /// How many arrows there are.
    pub fn len(self) -> u32
        ensures { result ≡ length (arrows_in self) }
    {
        let mut len = 0;
        for _arrow in self.iter() {
            len += 1;
        }
        len
    }

    /// The arrows, in rising order.
    pub fn iter(self) -> ArrowIter
        ensures { left_in result ≡ arrows_in self }
    {
        ArrowIter::over(self.words)
    }
}

impl Copied for ArrowMask {
    fn copy(&self, _alloc: Global) -> Result<ArrowMask, NoMemory> {
        Ok(*self)
    }
}
