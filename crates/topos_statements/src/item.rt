// What stands in lists.
ghost use Rattle.std.specs.Prelude.{◌<◌, map, length, IfOk, MatchResult, MatchBool};
ghost use Rattle.topos_grammar.specs.Codes.{Class, Is};
ghost use Rattle.topos_text.specs.Tokens.{token_of};
ghost use Rattle.topos_grammar.specs.Kinds.{Sort, Tree};
ghost use Rattle.topos_statements.specs.Passages.{Passage, Passes, Halts, several, each, braced};

use std::alloc::Global;
use topos_grammar::Stop;
use topos_grammar::heads::{after_symbol, expect};
use topos_text::{Symbol, Token};

/// A part of the grammar that has a token.
pub trait Item<'a>: Sized + Drop {
    ghost sort: { Sort };

    ghost tree: { Self → Tree sort };

    ghost passage: { Passage (Tree sort) };

    /// The item in front, and the tokens behind it.
    fn read<'t>(alloc: Global, tokens: &'t [Token<'a>]) -> Result<(Self, &'t [Token<'a>]), Stop>
        ensures passes { MatchResult result (λ x. Passes passage (map token_of tokens.now) (tree x.0) (map token_of x.1.now)) (λ e. Halts passage (map token_of tokens.now) e) }
        ensures shorter { IfOk result (λ x. length x.1.now < length tokens.now) };
}

/// Items with commas between them, at least one, and the tokens behind them.
pub fn several<'t, 'a, T: Item<'a>>(
    alloc: Global,
    tokens: &'t [Token<'a>],
) -> Result<(Vec<T>, &'t [Token<'a>]), Stop>
    ensures passes { MatchResult result (λ x. Passes (several T.sort T.passage) (map token_of tokens.now) (map T.tree x.0.items) (map token_of x.1.now)) (λ e. Halts (several T.sort T.passage) (map token_of tokens.now) e) }
    ensures shorter { IfOk result (λ x. length x.1.now < length tokens.now) }
{
    let (first, mut rest) = T::read(alloc, tokens)?;
    let mut items = Vec::new(alloc);
    items.push(first)?;
    while let Some(behind) = after_symbol(rest, Symbol::Comma) {
        let (next, after) = T::read(alloc, behind)?;
        items.push(next)?;
        rest = after;
    }
    Ok((items, rest))
}

/// A part of the grammar that stands in lists whose items end with semicolons.
pub trait Listed<'a>: Item<'a> {
    ghost class: { Class };

    /// Whether an item stands in front, by its first token.
    fn begins(tokens: &[Token<'a>]) -> bool
        ensures { MatchBool result (Is class (map token_of tokens.now)) (Is class (map token_of tokens.now) → ⊥) };
}

/// Items, each with a semicolon, and the tokens behind them.
pub fn each<'t, 'a, T: Listed<'a>>(
    alloc: Global,
    tokens: &'t [Token<'a>],
) -> Result<(Vec<T>, &'t [Token<'a>]), Stop>
    ensures { MatchResult result (λ x. Passes (each T.sort T.class T.passage) (map token_of tokens.now) (map T.tree x.0.items) (map token_of x.1.now)) (λ e. Halts (each T.sort T.class T.passage) (map token_of tokens.now) e) }
{
    let mut items = Vec::new(alloc);
    let (_, mut rest) = tokens.split_at(0);
    while T::begins(rest) {
        let (item, behind) = T::read(alloc, rest)?;
        let after = expect(behind, Symbol::Semicolon)?;
        items.push(item)?;
        rest = after;
    }
    Ok((items, rest))
}

/// Such items in braces.
pub fn braced<'t, 'a, T: Listed<'a>>(
    alloc: Global,
    tokens: &'t [Token<'a>],
) -> Result<(Vec<T>, &'t [Token<'a>]), Stop>
    ensures { MatchResult result (λ x. Passes (braced T.sort T.class T.passage) (map token_of tokens.now) (map T.tree x.0.items) (map token_of x.1.now)) (λ e. Halts (braced T.sort T.class T.passage) (map token_of tokens.now) e) }
{
    let inside = expect(tokens, Symbol::OpenBrace)?;
    let (items, rest) = each(alloc, inside)?;
    let end = expect(rest, Symbol::CloseBrace)?;
    Ok((items, end))
}
