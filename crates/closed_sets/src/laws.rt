// Laws of closed sets.
ghost use Rattle.closed_sets.specs.Laws.{BitsAreSublists, ClosedListsAreSublists};

/// Lists of truth values stand for the sublists of a list, in their order; so the closed ones stand for the closed sublists, in order.
pub fn closed_set_laws()
    ensures sublists { BitsAreSublists }
    ensures closed { ClosedListsAreSublists }
{}
