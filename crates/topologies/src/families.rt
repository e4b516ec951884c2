// Whether families are made of arrows into their objects.
ghost use Rattle.std.specs.Prelude.{◌≡◌, ◌↔◌, true};
ghost use Rattle.topos_model.specs.topologies.TopologyFaults.{IsListed};
ghost use Rattle.topologies.specs.Candidates.{listed_site};
ghost use Rattle.topologies.specs.Families.{is_family, are_families};

use fin_category::Cat;
use topos_model::Family;

// Whether the arrows of a family are arrows into its object.
fn is_family(cat: &Cat, family: &Family) -> bool
    ensures { result ≡ is_family cat.now family.now }
{
    for f in family.arrows.as_slice() {
        if *f >= cat.arrows() || cat.cod(*f) != family.at {
            return false;
        }
    }
    true
}

// Whether all families are such.
fn all_families(cat: &Cat, families: &[Family]) -> bool
    ensures { result ≡ are_families cat.now families.now }
{
    for family in families {
        if !is_family(cat, family) {
            return false;
        }
    }
    true
}

/// Whether the arrows of each family are arrows into its object.
pub fn are_families(cat: &Cat, families: &[Family]) -> bool
    ensures value { result ≡ are_families cat.now families.now }
    ensures listed { (result ≡ true) ↔ IsListed (listed_site cat.now families.now) }
{
    all_families(cat, families)
}
