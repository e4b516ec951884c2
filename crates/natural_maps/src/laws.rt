// Laws of natural maps and of the check of a listed one.
ghost use Rattle.topos_model.specs.presheaves.Maps.{CompositesAreNatural, MapsAreValues};
ghost use Rattle.topos_model.specs.presheaves.NaturalMaps.{MapsAreTheNaturalOnes, MapsRise, IdentitiesAreNatural, MapsCompose};
ghost use Rattle.topos_model.specs.presheaves.MapFaults.{FaultlessListingsAreOneMap};

/// Presheaves and natural maps form a category, and a natural map is its values. The list of all maps has the natural ones and no other, in order. A listing has no
/// fault exactly if some natural map has its entries, and then there is exactly one.
pub fn map_laws()
    ensures composites { CompositesAreNatural }
    ensures identities { IdentitiesAreNatural }
    ensures category { MapsCompose }
    ensures values { MapsAreValues }
    ensures all { MapsAreTheNaturalOnes }
    ensures order { MapsRise }
    ensures one { FaultlessListingsAreOneMap }
{}
