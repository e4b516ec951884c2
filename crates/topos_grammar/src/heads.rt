// The front of a list of tokens.
ghost use Rattle.std.specs.Prelude.{◌≡◌, ◌≢◌, ◌∷◌, ℕ, List, map, length, MatchOption, MatchResult, MatchBool};
ghost use Rattle.topos_text.specs.Tokens.{token_of, written, Name, Reserved, Sign};
ghost use Rattle.topos_grammar.specs.Codes.{Is, the, sign, AnyName, binders};
ghost use Rattle.topos_grammar.specs.Gives.{Misses};
ghost use Rattle.topos_text.specs.Views.{binder_of};
ghost use Rattle.topos_text.specs.Terms.{binder_word};

use crate::Stop;
use topos_text::{Binder, Symbol, Token, Word, Written};

fn same_word(left: Word, right: Word) -> bool
    ensures { MatchBool result (left ≡ right) (left ≢ right) }
{
    left == right
}

/// The tokens behind the word, where it stands in front.
pub fn after_word<'t, 'a>(tokens: &'t [Token<'a>], want: Word) -> Option<&'t [Token<'a>]>
    ensures { MatchOption result (Is (the want) (map token_of tokens.now) → ⊥) (λ rest. map token_of tokens.now ≡ Reserved want ∷ map token_of rest.now) }
{
    match tokens {
        [Token::Word(word), rest @ ..] => {
            if same_word(*word, want) {
                Some(rest)
            } else {
                None
            }
        }
        _ => None,
    }
}

/// The tokens behind the symbol, where it stands in front.
pub fn after_symbol<'t, 'a>(tokens: &'t [Token<'a>], want: Symbol) -> Option<&'t [Token<'a>]>
    ensures { MatchOption result (Is (sign want) (map token_of tokens.now) → ⊥) (λ rest. map token_of tokens.now ≡ Sign want ∷ map token_of rest.now) }
{
    match tokens {
        [Token::Symbol(symbol), rest @ ..] => { if *symbol == want { Some(rest) } else { None } }
        _ => None,
    }
}

/// The name in front, and the tokens behind it.
pub fn name<'t, 'a>(tokens: &'t [Token<'a>]) -> Option<(Written<'a>, &'t [Token<'a>])>
    ensures { MatchOption result (Is AnyName (map token_of tokens.now) → ⊥) (λ r. map token_of tokens.now ≡ Name (written r.0) ∷ map token_of r.1.now) }
{
    match tokens.split_first() {
        Some((Token::Name(name), rest)) => Some((*name, rest)),
        _ => None,
    }
}

/// The tokens behind the symbol, which has to stand in front.
pub fn expect<'t, 'a>(tokens: &'t [Token<'a>], want: Symbol) -> Result<&'t [Token<'a>], Stop>
    ensures { MatchResult result (λ rest. map token_of tokens.now ≡ Sign want ∷ map token_of rest.now) (λ e. Misses (sign want) (map token_of tokens.now) e) }
{
    match after_symbol(tokens, want) {
        Some(rest) => Ok(rest),
        None => Err(Stop::At(tokens.len())),
    }
}

/// The name that has to stand in front, and the tokens behind it.
pub fn expect_name<'t, 'a>(tokens: &'t [Token<'a>]) -> Result<(Written<'a>, &'t [Token<'a>]), Stop>
    ensures { MatchResult result (λ r. map token_of tokens.now ≡ Name (written r.0) ∷ map token_of r.1.now) (λ e. Misses AnyName (map token_of tokens.now) e) }
{
    match name(tokens) {
        Some(found) => Ok(found),
        None => Err(Stop::At(tokens.len())),
    }
}

/// The word of a binder in front, and the tokens behind it.
pub fn binder<'t, 'a>(tokens: &'t [Token<'a>]) -> Option<(Binder, &'t [Token<'a>])>
    ensures { MatchOption result (Is binders (map token_of tokens.now) → ⊥) (λ r. map token_of tokens.now ≡ Reserved (binder_word (binder_of r.0)) ∷ map token_of r.1.now) }
{
    if let Some(rest) = after_word(tokens, Word::Forall) {
        return Some((Binder::Forall, rest));
    }
    if let Some(rest) = after_word(tokens, Word::Exists) {
        return Some((Binder::Exists, rest));
    }
    if let Some(rest) = after_word(tokens, Word::Unique) {
        return Some((Binder::Unique, rest));
    }
    if let Some(rest) = after_word(tokens, Word::Fun) {
        return Some((Binder::Fun, rest));
    }
    None
}
