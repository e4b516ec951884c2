// The main laws, at lists of numbers. The lemmas of proofs/ say them of any list.
ghost use Rattle.finite_lists.specs.Laws.{SublistsAreWithin, FiltersAreSublists, SublistsAreFilters, SublistsRise, NoAnswerIsNoneAnywhere, AnswersComeFromMembers};

/// What the sublists of a list are, that they stand in the order "without, then with", and where a first answer comes from.
pub fn list_laws()
    ensures within { SublistsAreWithin }
    ensures filters { FiltersAreSublists }
    ensures kept { SublistsAreFilters }
    ensures rising { SublistsRise }
    ensures none { NoAnswerIsNoneAnywhere }
    ensures answer { AnswersComeFromMembers }
{}
