// Laws over the definitions alone.
ghost use Rattle.finite_colimits.specs.Laws.{InitialPresheavesAreOne, CoproductsAreOne, CoequalizersAreOne, PushoutsAreOne};

/// Two presheaves with the property and the order of a colimit are one, and so are their maps.
pub fn colimit_laws()
    ensures initial { InitialPresheavesAreOne }
    ensures coproducts { CoproductsAreOne }
    ensures coequalizers { CoequalizersAreOne }
    ensures pushouts { PushoutsAreOne }
{}
