// Topologies, by their least covers.
ghost use Rattle.std.specs.Prelude.{◌≡◌, ℕ, ◌<◌, true, false, [], map, None, IfOk, IfErr};
ghost use Rattle.std.specs.List.{range_with_len};
ghost use Rattle.topos_model.specs.categories.Category.{into, dom, compose};
ghost use Rattle.topos_model.specs.topologies.Cover.{contains};
ghost use Rattle.topos_model.specs.Laws.{IsInto};
ghost use Rattle.topos_model.specs.topologies.TopologyFaults.{IsListed, topology_fault};
ghost use Rattle.topos_model.specs.topologies.LeastCovers.{is_among_covers, least, closure};
ghost use Rattle.fin_category.specs.ArrowSets.{arrows_in};
ghost use Rattle.sieve_table.specs.Sieves.{sieve_arrows, IsSieveOf};
ghost use Rattle.topologies.specs.DenseCovers.{dense_least};
ghost use Rattle.topologies.specs.Closures.{goes_within};
ghost use Rattle.topologies.specs.Candidates.{listed_site};
ghost use Rattle.topologies.specs.ListedFaults.{IsFaultOf};
ghost use Rattle.topologies.specs.Topologies.{site_of, IsTopologyOn};

use crate::TopFault;
use crate::candidates::{check_intersections, check_stable, check_twice};
use crate::dense::dense_cover;
use crate::listed::{least_covers, listed_sieves};
use fin_category::{ArrowMask, Cat};
use sieve_table::Sieve;
use std::alloc::Global;
use topos_model::{Copied, Family, NoMemory, Row};

/// A Grothendieck topology: whether it is the dense one, the families of its listed sieves, and the least cover of each object.
/// It holds no category: that it is a topology is a condition and a promise of the calls, for the category that they name.
#[derive(Drop)]
pub struct Topology {
    dense: bool,
    families: Row<Family>,
    least: Row<ArrowMask>,
}

// All arrows into each object.
fn maximal_covers(alloc: Global, cat: &Cat) -> Result<Row<ArrowMask>, NoMemory>
    ensures { IfOk result (λ row. map arrows_in row ≡ map (into cat.now) (range_with_len 0 cat.now.objects)) }
{
    let mut row = Row::new(alloc);
    for c in 0..cat.objects() {
        row.push(cat.into(c))?;
    }
    Ok(row)
}

// The least dense cover of each object.
fn dense_covers(alloc: Global, cat: &Cat) -> Result<Row<ArrowMask>, NoMemory>
    ensures { IfOk result (λ row. map arrows_in row ≡ map (dense_least cat.now) (range_with_len 0 cat.now.objects)) }
{
    let mut row = Row::new(alloc);
    for c in 0..cat.objects() {
        row.push(dense_cover(cat, c))?;
    }
    Ok(row)
}

// A copy of each family.
fn copies(alloc: Global, families: &[Family]) -> Result<Row<Family>, NoMemory>
    ensures { IfOk result (λ row. row ≡ families.now) }
{
    let mut row = Row::new(alloc);
    for family in families {
        row.push(family.copy(alloc)?)?;
    }
    Ok(row)
}

impl Topology {
    /// The topology of listed covers: a sieve covers if it has all arrows, or those of a sieve that a family of its object generates.
    /// Where that is no topology, the error is the first candidate that fails. Want of memory is the only other error.
    pub fn listed(alloc: Global, cat: &Cat, families: &[Family]) -> Result<Topology, TopFault>
        requires { IsListed (listed_site cat.now families.now) }
        ensures listed { IfOk result (λ t. (t.dense ≡ false) × (t.families ≡ families.now)) }
        ensures lawful { IfOk result (λ t. (under : ℕ) → topology_fault (listed_site cat.now families.now) under ≡ None) }
        ensures topology { IfOk result (λ t. IsTopologyOn cat.now t) }
        ensures fault { IfErr result (λ fault. IsFaultOf (listed_site cat.now families.now) fault) }
    {
        cat.laws();
        let rows = listed_sieves(alloc, cat, families)?;
        let sieves = rows.as_slice();
        if let Err(fault) = check_stable(alloc, cat, sieves) {
            return Err(fault);
        }
        if let Err(fault) = check_intersections(alloc, cat, sieves) {
            return Err(fault);
        }
        let least = least_covers(alloc, cat, sieves)?;
        if let Err(fault) = check_twice(alloc, cat, sieves, least.as_slice()) {
            return Err(fault);
        }
        let families = copies(alloc, families)?;
        Ok(Topology {
            dense: false,
            families,
            least,
        })
    }

    /// The topology whose only covers are the maximal sieves.
    pub fn trivial(alloc: Global, cat: &Cat) -> Result<Topology, NoMemory>
        ensures listed { IfOk result (λ t. (t.dense ≡ false) × (t.families ≡ [])) }
        ensures topology { IfOk result (λ t. IsTopologyOn cat.now t) }
    {
        let least = maximal_covers(alloc, cat)?;
        cat.laws();
        Ok(Topology {
            dense: false,
            families: Row::new(alloc),
            least,
        })
    }

    /// The dense topology: a sieve covers if each arrow into its object has a composite in it.
    pub fn dense(alloc: Global, cat: &Cat) -> Result<Topology, NoMemory>
        ensures dense { IfOk result (λ t. (t.dense ≡ true) × (t.families ≡ [])) }
        ensures topology { IfOk result (λ t. IsTopologyOn cat.now t) }
    {
        let least = dense_covers(alloc, cat)?;
        cat.laws();
        Ok(Topology {
            dense: true,
            families: Row::new(alloc),
            least,
        })
    }

    // The least cover of c.
    fn least_arrows(&self, cat: &Cat, c: u32) -> ArrowMask
        requires topology { IsTopologyOn cat.now self.now }
        requires object { c < cat.now.objects }
        ensures { arrows_in result ≡ least (site_of cat.now self.now) c }
    {
        *self.least.get(c as usize)
    }

    /// The least cover of c.
    pub fn least(&self, cat: &Cat, c: u32) -> Sieve
        requires topology { IsTopologyOn cat.now self.now }
        requires object { c < cat.now.objects }
        ensures at { result.at ≡ c }
        ensures arrows { sieve_arrows result ≡ least (site_of cat.now self.now) c }
        ensures sieve { IsSieveOf cat.now result }
    {
        cat.laws();
        Sieve::new(c, self.least_arrows(cat, c))
    }

    /// Whether a sieve covers.
    pub fn is_cover(&self, cat: &Cat, s: &Sieve) -> bool
        requires topology { IsTopologyOn cat.now self.now }
        requires object { s.now.at < cat.now.objects }
        requires sieve { IsSieveOf cat.now s.now }
        ensures { result ≡ is_among_covers (site_of cat.now self.now) s.now.at (sieve_arrows s.now) }
    {
        cat.laws();
        self.least_arrows(cat, s.at()).is_within(s.arrows())
    }

    /// The closure of a sieve: the f along which it pulls back to a cover.
    pub fn closure(&self, cat: &Cat, s: &Sieve) -> Sieve
        requires topology { IsTopologyOn cat.now self.now }
        requires object { s.now.at < cat.now.objects }
        requires sieve { IsSieveOf cat.now s.now }
        ensures at { result.at ≡ s.now.at }
        ensures arrows { sieve_arrows result ≡ closure (site_of cat.now self.now) s.now.at (sieve_arrows s.now) }
        ensures sieve { IsSieveOf cat.now result }
    {
        cat.laws();
        let mut arrows = ArrowMask::empty();
        for f in cat.arrows_into(s.at()) {
            if self.goes_into(cat, s, *f) {
                arrows.insert(*f);
            }
        }
        Sieve::new(s.at(), arrows)
    }

    // Whether f.g is in the sieve for each g of the least cover of the domain of f.
    fn goes_into(&self, cat: &Cat, s: &Sieve, f: u32) -> bool
        requires topology { IsTopologyOn cat.now self.now }
        requires into { IsInto cat.now s.now.at f }
        ensures { result ≡ goes_within cat.now (sieve_arrows s.now) f (least (site_of cat.now self.now) (dom cat.now f)) }
    {
        cat.laws();
        for g in self.least_arrows(cat, cat.dom(f)).iter() {
            if !s.has(cat.compose(f, g)) {
                return false;
            }
        }
        true
    }
}

impl Copied for Topology {
    fn copy(&self, alloc: Global) -> Result<Topology, NoMemory> {
        let families = self.families.copy(alloc)?;
        let least = self.least.copy(alloc)?;
        Ok(Topology {
            dense: self.dense,
            families,
            least,
        })
    }
}
