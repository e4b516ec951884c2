// The front of a list of tokens.
ghost use Rattle.std.specs.Prelude.{◌≡◌, ◌∷◌, map, MatchOption, MatchResult, MatchBool};
ghost use Rattle.topos_text.specs.Tokens.{Written, token_of, Place, Reserved};
ghost use Rattle.topos_text.specs.Views.{place_of};
ghost use Rattle.topos_grammar.specs.Codes.{Is, the, sign, AnyName, AnyPlace, Numbered};
ghost use Rattle.topos_grammar.specs.Gives.{Misses};

use topos_grammar::Stop;
use topos_grammar::heads::{after_symbol, after_word, name};
use topos_text::{PlaceTree, Symbol, Token, Word};

/// Whether the word stands in front.
pub fn stands(tokens: &[Token<'_>], word: Word) -> bool
    ensures { MatchBool result (Is (the word) (map token_of tokens.now)) (Is (the word) (map token_of tokens.now) → ⊥) }
{
    after_word(tokens, word).is_some()
}

/// The tokens behind the word, which has to stand in front.
pub fn expect_word<'t, 'a>(tokens: &'t [Token<'a>], word: Word) -> Result<&'t [Token<'a>], Stop>
    ensures { MatchResult result (λ rest. map token_of tokens.now ≡ Reserved word ∷ map token_of rest.now) (λ e. Misses (the word) (map token_of tokens.now) e) }
{
    match after_word(tokens, word) {
        Some(rest) => Ok(rest),
        None => Err(Stop::At(tokens.len())),
    }
}

/// The place in front, and the tokens behind it.
pub fn place<'t, 'a>(tokens: &'t [Token<'a>]) -> Option<(PlaceTree<'a>, &'t [Token<'a>])>
    ensures { MatchOption result (Is AnyPlace (map token_of tokens.now) → ⊥) (λ r. map token_of tokens.now ≡ Place (place_of r.0).number (place_of r.0).written ∷ map token_of r.1.now) }
{
    match tokens.split_first() {
        Some((Token::Place { number, written }, rest)) => {
            let found = PlaceTree {
                number: *number,
                written: *written,
            };
            Some((found, rest))
        }
        _ => None,
    }
}

/// The place that has to stand in front, and the tokens behind it.
pub fn expect_place<'t, 'a>(
    tokens: &'t [Token<'a>],
) -> Result<(PlaceTree<'a>, &'t [Token<'a>]), Stop>
    ensures { MatchResult result (λ r. map token_of tokens.now ≡ Place (place_of r.0).number (place_of r.0).written ∷ map token_of r.1.now) (λ e. Misses AnyPlace (map token_of tokens.now) e) }
{
    match place(tokens) {
        Some(found) => Ok(found),
        None => Err(Stop::At(tokens.len())),
    }
}

/// The tokens behind a place that stands for the number, which has to stand in front.
pub fn expect_number<'t, 'a>(tokens: &'t [Token<'a>], number: u32) -> Result<&'t [Token<'a>], Stop>
    ensures { MatchResult result (λ rest. (x : Written) × (map token_of tokens.now ≡ Place number x ∷ map token_of rest.now)) (λ e. Misses (Numbered number) (map token_of tokens.now) e) }
{
    match place(tokens) {
        Some((found, rest)) => {
            if found.number == number {
                Ok(rest)
            } else {
                Err(Stop::At(tokens.len()))
            }
        }
        None => Err(Stop::At(tokens.len())),
    }
}

/// Whether the symbol stands in front.
pub fn stands_symbol(tokens: &[Token<'_>], symbol: Symbol) -> bool
    ensures { MatchBool result (Is (sign symbol) (map token_of tokens.now)) (Is (sign symbol) (map token_of tokens.now) → ⊥) }
{
    after_symbol(tokens, symbol).is_some()
}

/// Whether a name stands in front.
pub fn stands_name(tokens: &[Token<'_>]) -> bool
    ensures { MatchBool result (Is AnyName (map token_of tokens.now)) (Is AnyName (map token_of tokens.now) → ⊥) }
{
    name(tokens).is_some()
}

/// Whether a place stands in front.
pub fn stands_place(tokens: &[Token<'_>]) -> bool
    ensures { MatchBool result (Is AnyPlace (map token_of tokens.now)) (Is AnyPlace (map token_of tokens.now) → ⊥) }
{
    place(tokens).is_some()
}

/// The reserved word in front, and the tokens behind it.
pub fn first_word<'t, 'a>(tokens: &'t [Token<'a>]) -> Option<(Word, &'t [Token<'a>])>
    ensures { MatchOption result ((w : _) → Is (the w) (map token_of tokens.now) → ⊥) (λ r. map token_of tokens.now ≡ Reserved r.0 ∷ map token_of r.1.now) }
{
    match tokens.split_first() {
        Some((Token::Word(word), rest)) => Some((*word, rest)),
        _ => None,
    }
}
