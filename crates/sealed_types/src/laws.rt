// Laws of types that are sealed in a store.
ghost use Rattle.sealed_types.specs.Laws.{SealedTypesRestrict, SealedTypesCanBeAsked};

/// The elements of a type that is sealed in a store that is faithful to a site restrict as those of a presheaf, and may be asked for everywhere.
pub fn sealed_type_laws()
    ensures restrict { SealedTypesRestrict }
    ensures asked { SealedTypesCanBeAsked }
{}
