// Laws of sieves.
ghost use Rattle.sieve_table.specs.Laws.{PullsAreSieves, IntersectionsAreSieves, MaximalIsSieve, GeneratedIsLeast, PullsCompose, MembersPullToAll};

/// Pulling back, intersecting and generating give sieves; the generated sieve is the least one with the arrows; pulling back goes
/// along composites; and a sieve has an arrow exactly if it pulls back along it to all arrows.
pub fn sieve_laws()
    ensures pulls { PullsAreSieves }
    ensures intersections { IntersectionsAreSieves }
    ensures maximal { MaximalIsSieve }
    ensures generated { GeneratedIsLeast }
    ensures composites { PullsCompose }
    ensures members { MembersPullToAll }
{}
