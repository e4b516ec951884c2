// Laws of the check of a listed presheaf.
ghost use Rattle.topos_model.specs.categories.Filling.{FillingPairsAreFirst};
ghost use Rattle.topos_model.specs.presheaves.PresheafFaults.{FaultlessListingsAreOnePresheaf};
ghost use Rattle.presheaf_core.specs.Laws.{FunctorsCompose, FailingInstancesFail};

/// No fault is found exactly if some presheaf is filled and a functor, and then there is exactly one; a functor has no failing instance, and an instance that is
/// given fails. The pair that fills a restriction is the first of all that do.
pub fn presheaf_laws()
    ensures one { FaultlessListingsAreOnePresheaf }
    ensures complete { FunctorsCompose }
    ensures instance { FailingInstancesFail }
    ensures filling { FillingPairsAreFirst }
{}
