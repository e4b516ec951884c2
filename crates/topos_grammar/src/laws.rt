// The laws of reading.
ghost use Rattle.topos_text.specs.Laws.{TreesAreUnique};
ghost use Rattle.topos_grammar.specs.Laws.{ReadingIsUnique, WhatIsReadDerives, PhrasesAreRead, ReadingStopsThere, DocumentsAreRead, WhatIsReadIsADocument, ReadingStopsAtTheSyntaxPlace, ReadingEnds, ReadingDocumentsEnds};

/// What the readings that the parsers' contracts speak of mean: each phrase of the grammar, and no other, is read with its tree, one way alone, and reading stops at the first token with which no phrase goes on.
/// So are documents, and reading one stops where the tokens cease to be a document. Tokens are a document with at most one tree.
/// Reading comes to an end on every list of tokens.
pub fn reading_laws()
    ensures unique { ReadingIsUnique }
    ensures sound { WhatIsReadDerives }
    ensures complete { PhrasesAreRead }
    ensures place { ReadingStopsThere }
    ensures documents { DocumentsAreRead }
    ensures document_sound { WhatIsReadIsADocument }
    ensures document_place { ReadingStopsAtTheSyntaxPlace }
    ensures one_tree { TreesAreUnique }
    ensures ends { ReadingEnds }
    ensures document_ends { ReadingDocumentsEnds }
{}
