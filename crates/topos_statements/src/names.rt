// Names, and what is read like one.
ghost use Rattle.std.specs.Prelude.{map, MatchResult};
ghost use Rattle.topos_text.specs.Tokens.{token_of, written, Reserved, Sign};
ghost use Rattle.topos_text.specs.Views.{place_of, binding_of, term_of};
ghost use Rattle.topos_grammar.specs.Kinds.{OfName, OfPlace, OfBinding, OfTerm, AnyTerm};
ghost use Rattle.topos_grammar.specs.Codes.{eat, name, a_place, bind, call};
ghost use Rattle.topos_statements.specs.Passages.{Passes, Halts};

use crate::Item;
use crate::heads::{expect_place, expect_word};
use std::alloc::Global;
use topos_grammar::heads::{expect, expect_name};
use topos_grammar::{Stop, any_term, binding};
use topos_text::{Binding, PlaceTree, Symbol, TermTree, Token, Word, Written};

impl<'a> Item<'a> for Written<'a> {
    ghost sort = { OfName };

    ghost tree = { written };

    ghost passage = { λ s k. name k };

    fn read<'t>(
        _alloc: Global,
        tokens: &'t [Token<'a>],
    ) -> Result<(Written<'a>, &'t [Token<'a>]), Stop> {
        expect_name(tokens)
    }
}

impl<'a> Item<'a> for PlaceTree<'a> {
    ghost sort = { OfPlace };

    ghost tree = { place_of };

    ghost passage = { λ s k. a_place k };

    fn read<'t>(
        _alloc: Global,
        tokens: &'t [Token<'a>],
    ) -> Result<(PlaceTree<'a>, &'t [Token<'a>]), Stop> {
        expect_place(tokens)
    }
}

impl<'a> Item<'a> for Binding<'a> {
    ghost sort = { OfBinding };

    ghost tree = { binding_of };

    ghost passage = { λ s k. bind k };

    fn read<'t>(
        alloc: Global,
        tokens: &'t [Token<'a>],
    ) -> Result<(Binding<'a>, &'t [Token<'a>]), Stop> {
        binding::bind(alloc, tokens)
    }
}

impl<'a> Item<'a> for Box<TermTree<'a>> {
    ghost sort = { OfTerm };

    ghost tree = { λ t. term_of t.value };

    ghost passage = { λ s k. call AnyTerm k };

    fn read<'t>(
        alloc: Global,
        tokens: &'t [Token<'a>],
    ) -> Result<(Box<TermTree<'a>>, &'t [Token<'a>]), Stop> {
        any_term(alloc, tokens)
    }
}

/// The name behind a word, and the tokens behind it.
pub fn name_behind<'t, 'a>(
    tokens: &'t [Token<'a>],
    word: Word,
) -> Result<(Written<'a>, &'t [Token<'a>]), Stop>
    ensures { MatchResult result (λ x. Passes (λ s k. eat (Reserved word) (name k)) (map token_of tokens.now) (written x.0) (map token_of x.1.now)) (λ e. Halts (λ s k. eat (Reserved word) (name k)) (map token_of tokens.now) e) }
{
    let behind = expect_word(tokens, word)?;
    let (name, rest) = expect_name(behind)?;
    Ok((name, rest))
}

/// The name behind a symbol, and the tokens behind it.
pub fn name_past<'t, 'a>(
    tokens: &'t [Token<'a>],
    symbol: Symbol,
) -> Result<(Written<'a>, &'t [Token<'a>]), Stop>
    ensures { MatchResult result (λ x. Passes (λ s k. eat (Sign symbol) (name k)) (map token_of tokens.now) (written x.0) (map token_of x.1.now)) (λ e. Halts (λ s k. eat (Sign symbol) (name k)) (map token_of tokens.now) e) }
{
    let behind = expect(tokens, symbol)?;
    let (name, rest) = expect_name(behind)?;
    Ok((name, rest))
}
