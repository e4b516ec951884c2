// The laws of tokens.
ghost use Rattle.topos_text.specs.Laws.{TokensAreUnique};
ghost use Rattle.topos_tokens.specs.TokenFaults.{EachTextIsUtf8OrNot, EachTextHasTokensOrNot};

/// A text has one list of tokens at most. Bytes are UTF-8 or are so up to a byte, and those that are have tokens or a byte at which none begins.
pub fn token_laws()
    ensures unique { TokensAreUnique }
    ensures text { EachTextIsUtf8OrNot }
    ensures exist { EachTextHasTokensOrNot }
{}
