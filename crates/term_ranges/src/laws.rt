// What follows where the numbers of a term are in range.
ghost use Rattle.term_ranges.specs.RangeLaws.{TypingIsStable, NeedsAreStable, FoundIsInRange, NamesAreInRange, MeaningIsStable};

/// A term whose numbers are in range has the same type, or the same first fault, whatever maps are declared later; it needs the same types, and it means the same.
/// Where those of its context and of the ends of the maps are in range as well, so are the type that is found for it and each functor that it needs.
pub fn range_laws()
    ensures typing { TypingIsStable }
    ensures needs { NeedsAreStable }
    ensures found { FoundIsInRange }
    ensures named { NamesAreInRange }
    ensures meaning { MeaningIsStable }
{}
