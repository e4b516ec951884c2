// The law of limits.
ghost use Rattle.document_limits.specs.Laws.{LimitedDocumentsFit};

/// Within the limits of a text a tree has the document that it has without them, exactly if that document fits: names are looked up alike, and a limit is passed
/// exactly where the document is too large.
pub fn limit_laws()
    ensures fit { LimitedDocumentsFit }
{}
