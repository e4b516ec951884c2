// Laws of topologies and of closures.
ghost use Rattle.topos_model.specs.topologies.LeastCovers.{IntersectionIsLeast, CoversContainLeast, ClosureIsLeastClosed};
ghost use Rattle.topos_model.specs.topologies.TopologyFaults.{NoFaultIsTopology, FaultsFail};
ghost use Rattle.topologies.specs.Laws.{DenseIsTopology, TrivialIsTopology, SomeCoverPasses, ClosuresAreMonotone, ClosuresIntersect, ClosuresAreIdempotent, ClosuresPullBack, IdentitiesCover, TwoPassesClose};

/// The candidate tests decide whether covers are a topology, and a candidate that fails is an instance at which the law fails that is
/// named. The intersection of all covers of an object is its least cover, and the covers are the sieves that contain it. The dense
/// sieves and the maximal ones are topologies. A test that passes on some cover passes on the least one.
pub fn topology_laws()
    ensures decided { NoFaultIsTopology }
    ensures fails { FaultsFail }
    ensures least { IntersectionIsLeast }
    ensures covers { CoversContainLeast }
    ensures dense { DenseIsTopology }
    ensures trivial { TrivialIsTopology }
    ensures some_cover { SomeCoverPasses }
{}

/// The closure of a sieve is the least closed sieve above it; closing is monotone and idempotent and commutes with intersections and
/// with pulling back. Sets of places are closed in two passes, first under restriction and then under covers.
pub fn closure_laws()
    ensures closed { ClosureIsLeastClosed }
    ensures monotone { ClosuresAreMonotone }
    ensures intersections { ClosuresIntersect }
    ensures idempotent { ClosuresAreIdempotent }
    ensures pulls { ClosuresPullBack }
    ensures identities { IdentitiesCover }
    ensures places { TwoPassesClose }
{}
