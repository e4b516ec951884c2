// The laws of typing.
ghost use Rattle.term_typing.specs.Laws.{InferredExactly, NotedExactly};

/// A type is found for a term exactly if the term has it by the rules of the language.
pub fn typing_laws()
    ensures exact { InferredExactly }
{}

/// The types that the pass over a term lists are, with their parts, those that the term counts.
pub fn counting_laws()
    ensures exact { NotedExactly }
{}
