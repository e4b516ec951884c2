ghost use Rattle.forcing_laws.specs.ForcingLaws.{ForcedAtIdentity, ForcingIsLocal, ForcingIsMonotone, ValuesAreElements, ValuesAreForcingSieves, ValuesRestrict};
ghost use Rattle.forcing_laws.specs.Tuples.{TuplesAreListed, TuplesArePresheaves, TuplesAreProducts};

/// Terms are natural maps from the tuples of their context to their type, forcing is monotone and local, and the value of a formula is the closed sieve of the arrows along which it is
/// forced (Mac Lane and Moerdijk, VI.5 to VI.7); and the tuples of a context are listed in the order of its product.
pub fn forcing_laws()
    ensures elements { ValuesAreElements }
    ensures natural { ValuesRestrict }
    ensures monotone { ForcingIsMonotone }
    ensures local { ForcingIsLocal }
    ensures sieves { ValuesAreForcingSieves }
    ensures identity { ForcedAtIdentity }
    ensures listed { TuplesAreListed }
    ensures restrictions { TuplesArePresheaves }
    ensures products { TuplesAreProducts }
{}
