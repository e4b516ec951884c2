// Types from tokens.
ghost use Rattle.std.specs.Prelude.{◌≡◌, map};
ghost use Rattle.topos_text.specs.Tokens.{token_of};
ghost use Rattle.topos_grammar.specs.Kinds.{AnyType, ProductType, MoreFactors, PrefixType};
ghost use Rattle.topos_grammar.specs.Gives.{Gives};
ghost use Rattle.topos_text.specs.Views.{type_of};

use crate::Stop;
use crate::heads::{after_symbol, after_word, expect, name};
use crate::tree::{function, power, product};
use std::alloc::Global;
use topos_text::{Symbol, Token, TypeTree, Word};

/// A type, and the tokens behind it.
#[cycle(types)]
pub fn any_type<'t, 'a>(
    alloc: Global,
    tokens: &'t [Token<'a>],
) -> Result<(TypeTree<'a>, &'t [Token<'a>]), Stop>
    ensures { Gives (λ x. type_of x.0) (λ x. map token_of x.1.now) AnyType (map token_of tokens.now) result }
{
    let (left, rest) = product_type(alloc, tokens)?;
    match after_symbol(rest, Symbol::Arrow) {
        None => Ok((left, rest)),
        Some(behind) => {
            let (right, end) = any_type(alloc, behind)?;
            Ok((function(alloc, left, right)?, end))
        }
    }
}

#[cycle(types)]
fn product_type<'t, 'a>(
    alloc: Global,
    tokens: &'t [Token<'a>],
) -> Result<(TypeTree<'a>, &'t [Token<'a>]), Stop>
    ensures { Gives (λ x. type_of x.0) (λ x. map token_of x.1.now) ProductType (map token_of tokens.now) result }
{
    let (first, rest) = prefix_type(alloc, tokens)?;
    more_factors(alloc, first, rest)
}

#[cycle(types)]
fn more_factors<'t, 'a>(
    alloc: Global,
    so_far: TypeTree<'a>,
    tokens: &'t [Token<'a>],
) -> Result<(TypeTree<'a>, &'t [Token<'a>]), Stop>
    ensures { Gives (λ x. type_of x.0) (λ x. map token_of x.1.now) (MoreFactors (type_of so_far.entry)) (map token_of tokens.now) result }
{
    match after_symbol(tokens, Symbol::Star) {
        None => Ok((so_far, tokens)),
        Some(behind) => {
            let (next, rest) = prefix_type(alloc, behind)?;
            let both = product(alloc, so_far, next)?;
            more_factors(alloc, both, rest)
        }
    }
}

#[cycle(types)]
fn prefix_type<'t, 'a>(
    alloc: Global,
    tokens: &'t [Token<'a>],
) -> Result<(TypeTree<'a>, &'t [Token<'a>]), Stop>
    ensures { Gives (λ x. type_of x.0) (λ x. map token_of x.1.now) PrefixType (map token_of tokens.now) result }
{
    if let Some(behind) = after_word(tokens, Word::Pow) {
        let (inner, rest) = prefix_type(alloc, behind)?;
        return Ok((power(alloc, inner)?, rest));
    }
    if let Some((functor, rest)) = name(tokens) {
        return Ok((TypeTree::Functor(functor), rest));
    }
    if let Some(rest) = after_word(tokens, Word::One) {
        return Ok((TypeTree::One, rest));
    }
    if let Some(rest) = after_word(tokens, Word::Omega) {
        return Ok((TypeTree::Omega, rest));
    }
    let inside = expect(tokens, Symbol::OpenParenthesis)?;
    let (inner, rest) = any_type(alloc, inside)?;
    let end = expect(rest, Symbol::CloseParenthesis)?;
    Ok((inner, end))
}
