// Laws of the check of a listed category.
ghost use Rattle.topos_model.specs.categories.CategoryFaults.{FaultlessListingsAreOneCategory};
ghost use Rattle.fin_category.specs.Laws.{CategoriesAssociate, FailingTriplesFail};

/// No fault is found exactly if some category is filled and lawful, and then there is exactly one; a category associates, and a failing triple that is given fails.
pub fn category_laws()
    ensures one { FaultlessListingsAreOneCategory }
    ensures complete { CategoriesAssociate }
    ensures instance { FailingTriplesFail }
{}
