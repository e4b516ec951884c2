// Laws of matching families and sheaves.
ghost use Rattle.topos_model.specs.topologies.Sheaves.{ListsMatchingFamilies, ListsAmalgamations, NoFaultIsSheaf};

/// All matching families and all amalgamations are listed, and a presheaf is a sheaf exactly if each matching family on each least cover has exactly one amalgamation (III).
pub fn sheaf_laws()
    ensures families { ListsMatchingFamilies }
    ensures amalgamations { ListsAmalgamations }
    ensures sheaf { NoFaultIsSheaf }
{}
