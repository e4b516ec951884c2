// Laws over the definitions alone.
ghost use Rattle.finite_limits.specs.Laws.{ProductsAreOne, EqualizersAreOne, PullbacksAreOne, ImagesAreOne};

/// Two presheaves with the property and the order of a limit or an image are one, and so are their maps.
pub fn limit_laws()
    ensures products { ProductsAreOne }
    ensures equalizers { EqualizersAreOne }
    ensures pullbacks { PullbacksAreOne }
    ensures images { ImagesAreOne }
{}
