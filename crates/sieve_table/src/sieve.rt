// Sieves.
ghost use Rattle.std.specs.Prelude.{◌≡◌, ◌<◌, ℕ, []};
ghost use Rattle.finite_lists.specs.Members.{In};
ghost use Rattle.topos_model.specs.categories.Category.{Category, has, dom, into, generated, pull};
ghost use Rattle.topos_model.specs.topologies.Cover.{contains};
ghost use Rattle.topos_model.specs.statements.Form.{max_arrows};
ghost use Rattle.topos_model.specs.Laws.{IsInto};
ghost use Rattle.topos_model.specs.topologies.TopologyFaults.{intersection};
ghost use Rattle.fin_category.specs.Masks.{union};
ghost use Rattle.fin_category.specs.ArrowSets.{arrows_in};
ghost use Rattle.sieve_table.specs.Sieves.{sieve_arrows, IsSieveOf};

use fin_category::{ArrowMask, Cat};

/// A sieve: its object and its arrows. It holds no category: that it is closed under composition is a condition and a promise of the
/// calls, for the category that they name, or for every one where they name none.
#[derive(Clone, Copy)]
pub struct Sieve {
    at: u32,
    arrows: ArrowMask,
}

impl Sieve {
    /// The arrows as a sieve on c.
    pub fn new(c: u32, arrows: ArrowMask) -> Sieve
        ensures at { result.at ≡ c }
        ensures arrows { sieve_arrows result ≡ arrows_in arrows }
    {
        Sieve { at: c, arrows }
    }

    /// The sieve on c without an arrow.
    pub fn empty(c: u32) -> Sieve
        ensures at { result.at ≡ c }
        ensures arrows { sieve_arrows result ≡ [] }
        ensures sieve { (k : Category) → IsSieveOf k result }
    {
        Sieve {
            at: c,
            arrows: ArrowMask::empty(),
        }
    }

    /// The sieve of all arrows into c.
    pub fn maximal(cat: &Cat, c: u32) -> Sieve
        requires { c < cat.now.objects }
        ensures at { result.at ≡ c }
        ensures arrows { sieve_arrows result ≡ into cat.now c }
        ensures sieve { IsSieveOf cat.now result }
    {
        cat.laws();
        Sieve {
            at: c,
            arrows: cat.into(c),
        }
    }

    /// The sieve on c that arrows into c generate.
    pub fn generated(cat: &Cat, c: u32, arrows: ArrowMask) -> Sieve
        requires into { (g : ℕ) → In (arrows_in arrows) g → IsInto cat.now c g }
        ensures at { result.at ≡ c }
        ensures arrows { sieve_arrows result ≡ generated cat.now c (arrows_in arrows) }
        ensures sieve { IsSieveOf cat.now result }
    {
        cat.laws();
        let mut mask = ArrowMask::empty();
        'generators: for g in arrows.iter() {
            for f in cat.arrows_into(cat.dom(g)) {
                mask.insert(cat.compose(g, *f));
            }
        }
        Sieve {
            at: c,
            arrows: mask,
        }
    }

    /// The pullback along f: the g into the domain of f with f.g in the sieve.
    pub fn pull(&self, cat: &Cat, f: u32) -> Sieve
        requires sieve { IsSieveOf cat.now self.now }
        requires into { IsInto cat.now self.now.at f }
        ensures at { result.at ≡ dom cat.now f }
        ensures arrows { sieve_arrows result ≡ pull cat.now f (sieve_arrows self.now) }
        ensures sieve { IsSieveOf cat.now result }
    {
        cat.laws();
        let at = cat.dom(f);
        let mut arrows = ArrowMask::empty();
        for g in cat.arrows_into(at) {
            if self.arrows.contains(cat.compose(f, *g)) {
                arrows.insert(*g);
            }
        }
        Sieve { at, arrows }
    }

    /// The arrows of both sieves.
    pub fn meet(&self, o: &Sieve) -> Sieve
        requires { self.now.at ≡ o.now.at }
        ensures at { result.at ≡ self.now.at }
        ensures arrows { sieve_arrows result ≡ intersection (sieve_arrows self.now) (sieve_arrows o.now) }
        ensures sieve { (k : Category) → IsSieveOf k self.now → IsSieveOf k o.now → IsSieveOf k result }
    {
        Sieve {
            at: self.at,
            arrows: self.arrows.meet(o.arrows),
        }
    }

    /// The arrows of either sieve.
    pub fn join(&self, o: &Sieve) -> Sieve
        requires { self.now.at ≡ o.now.at }
        ensures at { result.at ≡ self.now.at }
        ensures arrows { sieve_arrows result ≡ union (sieve_arrows self.now) (sieve_arrows o.now) }
        ensures sieve { (k : Category) → IsSieveOf k self.now → IsSieveOf k o.now → IsSieveOf k result }
    {
        Sieve {
            at: self.at,
            arrows: self.arrows.union(o.arrows),
        }
    }

    /// Whether the other sieve has each arrow of this one.
    pub fn subset(&self, o: &Sieve) -> bool
        requires { self.now.at ≡ o.now.at }
        ensures { result ≡ contains (sieve_arrows self.now) (sieve_arrows o.now) }
    {
        self.arrows.is_within(o.arrows)
    }

    /// Whether the sieve has f.
    pub fn has(&self, f: u32) -> bool
        requires { f < max_arrows }
        ensures { result ≡ has f (sieve_arrows self.now) }
    {
        self.arrows.contains(f)
    }

    /// Its object.
    pub fn at(&self) -> u32
        ensures { result ≡ self.now.at }
    {
        self.at
    }

    /// Its arrows.
    pub fn arrows(&self) -> ArrowMask
        ensures { arrows_in result ≡ sieve_arrows self.now }
    {
        self.arrows
    }
}
