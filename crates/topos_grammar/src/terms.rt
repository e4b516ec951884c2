// Terms from tokens.

ghost use Rattle.std.specs.Prelude.{◌≡◌, ◌∷◌, map, MatchOption, MatchResult};
ghost use Rattle.topos_text.specs.Tokens.{token_of, Reserved};
ghost use Rattle.topos_text.specs.Terms.{binder_word};
ghost use Rattle.topos_grammar.specs.Kinds.{AnyTerm, Disjunction, MoreDisjuncts, Conjunction, MoreConjuncts, Negation, BinderTerm, Comparison, Application, MoreArguments, Atom, Parentheses};
ghost use Rattle.topos_grammar.specs.Reading.{Ready};
ghost use Rattle.topos_grammar.specs.Gives.{Gives, Opens, Unopened, IsLeaf, NoLeaf};
ghost use Rattle.topos_text.specs.Views.{term_of, binder_of};

use crate::Stop;
use crate::binding::bind;
use crate::heads::{after_symbol, after_word, binder, expect, name};
use crate::tree::{
    and, applied, bound, equal, first_of, grouped, implies, member, not, or, paired, second_of,
    subset,
};
use std::alloc::Global;
use topos_text::{Binder, Symbol, TermTree, Token, Word};

/// A term, and the tokens behind it.
#[cycle(terms)]
pub fn any_term<'t, 'a>(
    alloc: Global,
    tokens: &'t [Token<'a>],
) -> Result<(Box<TermTree<'a>>, &'t [Token<'a>]), Stop>
    ensures { Gives (λ x. term_of x.0.value) (λ x. map token_of x.1.now) AnyTerm (map token_of tokens.now) result }
{
    let (left, rest) = disjunction(alloc, tokens)?;
    match after_symbol(rest, Symbol::Implies) {
        None => Ok((left, rest)),
        Some(behind) => {
            let (right, end) = any_term(alloc, behind)?;
            Ok((implies(alloc, left, right)?, end))
        }
    }
}

#[cycle(terms)]
fn disjunction<'t, 'a>(
    alloc: Global,
    tokens: &'t [Token<'a>],
) -> Result<(Box<TermTree<'a>>, &'t [Token<'a>]), Stop>
    ensures { Gives (λ x. term_of x.0.value) (λ x. map token_of x.1.now) Disjunction (map token_of tokens.now) result }
{
    let (first, rest) = conjunction(alloc, tokens)?;
    more_disjuncts(alloc, first, rest)
}

#[cycle(terms)]
fn more_disjuncts<'t, 'a>(
    alloc: Global,
    so_far: Box<TermTree<'a>>,
    tokens: &'t [Token<'a>],
) -> Result<(Box<TermTree<'a>>, &'t [Token<'a>]), Stop>
    ensures { Ready (MoreDisjuncts (term_of so_far.entry.value)) (map token_of tokens.now) → Gives (λ x. term_of x.0.value) (λ x. map token_of x.1.now) (MoreDisjuncts (term_of so_far.entry.value)) (map token_of tokens.now) result }
{
    match after_word(tokens, Word::Or) {
        None => Ok((so_far, tokens)),
        Some(behind) => {
            let (next, rest) = conjunction(alloc, behind)?;
            let both = or(alloc, so_far, next)?;
            more_disjuncts(alloc, both, rest)
        }
    }
}

#[cycle(terms)]
fn conjunction<'t, 'a>(
    alloc: Global,
    tokens: &'t [Token<'a>],
) -> Result<(Box<TermTree<'a>>, &'t [Token<'a>]), Stop>
    ensures { Gives (λ x. term_of x.0.value) (λ x. map token_of x.1.now) Conjunction (map token_of tokens.now) result }
{
    let (first, rest) = negation(alloc, tokens)?;
    more_conjuncts(alloc, first, rest)
}

#[cycle(terms)]
fn more_conjuncts<'t, 'a>(
    alloc: Global,
    so_far: Box<TermTree<'a>>,
    tokens: &'t [Token<'a>],
) -> Result<(Box<TermTree<'a>>, &'t [Token<'a>]), Stop>
    ensures { Ready (MoreConjuncts (term_of so_far.entry.value)) (map token_of tokens.now) → Gives (λ x. term_of x.0.value) (λ x. map token_of x.1.now) (MoreConjuncts (term_of so_far.entry.value)) (map token_of tokens.now) result }
{
    match after_word(tokens, Word::And) {
        None => Ok((so_far, tokens)),
        Some(behind) => {
            let (next, rest) = negation(alloc, behind)?;
            let both = and(alloc, so_far, next)?;
            more_conjuncts(alloc, both, rest)
        }
    }
}

#[cycle(terms)]
fn negation<'t, 'a>(
    alloc: Global,
    tokens: &'t [Token<'a>],
) -> Result<(Box<TermTree<'a>>, &'t [Token<'a>]), Stop>
    ensures { Gives (λ x. term_of x.0.value) (λ x. map token_of x.1.now) Negation (map token_of tokens.now) result }
{
    match after_word(tokens, Word::Not) {
        Some(behind) => {
            let (inner, rest) = negation(alloc, behind)?;
            Ok((not(alloc, inner)?, rest))
        }
        None => match binder(tokens) {
            Some((binder, behind)) => bound_term(alloc, binder, behind),
            None => comparison(alloc, tokens),
        },
    }
}

/// The term of a binder, whose word stands before the tokens.
#[cycle(terms)]
fn bound_term<'t, 'a>(
    alloc: Global,
    binder: Binder,
    tokens: &'t [Token<'a>],
) -> Result<(Box<TermTree<'a>>, &'t [Token<'a>]), Stop>
    ensures { Gives (λ x. term_of x.0.value) (λ x. map token_of x.1.now) BinderTerm (Reserved (binder_word (binder_of binder)) ∷ map token_of tokens.now) result }
{
    let (binding, rest) = bind(alloc, tokens)?;
    let inner = expect(rest, Symbol::Dot)?;
    let (body, end) = any_term(alloc, inner)?;
    Ok((bound(alloc, binder, binding, body)?, end))
}

#[cycle(terms)]
fn comparison<'t, 'a>(
    alloc: Global,
    tokens: &'t [Token<'a>],
) -> Result<(Box<TermTree<'a>>, &'t [Token<'a>]), Stop>
    ensures { Gives (λ x. term_of x.0.value) (λ x. map token_of x.1.now) Comparison (map token_of tokens.now) result }
{
    let (left, rest) = application(alloc, tokens)?;
    match after_symbol(rest, Symbol::Equals) {
        Some(behind) => {
            let (right, end) = application(alloc, behind)?;
            Ok((equal(alloc, left, right)?, end))
        }
        None => match after_word(rest, Word::In) {
            Some(behind) => {
                let (right, end) = application(alloc, behind)?;
                Ok((member(alloc, left, right)?, end))
            }
            None => Ok((left, rest)),
        },
    }
}

#[cycle(terms)]
fn application<'t, 'a>(
    alloc: Global,
    tokens: &'t [Token<'a>],
) -> Result<(Box<TermTree<'a>>, &'t [Token<'a>]), Stop>
    ensures { Gives (λ x. term_of x.0.value) (λ x. map token_of x.1.now) Application (map token_of tokens.now) result }
{
    let (first, rest) = atom(alloc, tokens)?;
    more_arguments(alloc, first, rest)
}

#[cycle(terms)]
fn more_arguments<'t, 'a>(
    alloc: Global,
    so_far: Box<TermTree<'a>>,
    tokens: &'t [Token<'a>],
) -> Result<(Box<TermTree<'a>>, &'t [Token<'a>]), Stop>
    ensures { Gives (λ x. term_of x.0.value) (λ x. map token_of x.1.now) (MoreArguments (term_of so_far.entry.value)) (map token_of tokens.now) result }
{
    match after_symbol(tokens, Symbol::OpenParenthesis) {
        None => Ok((so_far, tokens)),
        Some(_) => {
            let (argument, rest) = parentheses(alloc, tokens)?;
            let both = applied(alloc, so_far, argument)?;
            more_arguments(alloc, both, rest)
        }
    }
}

#[cycle(terms)]
fn atom<'t, 'a>(
    alloc: Global,
    tokens: &'t [Token<'a>],
) -> Result<(Box<TermTree<'a>>, &'t [Token<'a>]), Stop>
    ensures { Gives (λ x. term_of x.0.value) (λ x. map token_of x.1.now) Atom (map token_of tokens.now) result }
{
    if let Some((term, rest)) = leaf(tokens) {
        return Ok((Box::new(alloc, term)?, rest));
    }
    if let Some(behind) = after_symbol(tokens, Symbol::OpenBrace) {
        let (binding, rest) = bind(alloc, behind)?;
        let inner = expect(rest, Symbol::Bar)?;
        let (body, rest) = any_term(alloc, inner)?;
        let end = expect(rest, Symbol::CloseBrace)?;
        return Ok((subset(alloc, binding, body)?, end));
    }
    if let Some(behind) = after_word(tokens, Word::Fst) {
        let (pair, rest) = in_parentheses(alloc, behind)?;
        return Ok((first_of(alloc, pair)?, rest));
    }
    if let Some(behind) = after_word(tokens, Word::Snd) {
        let (pair, rest) = in_parentheses(alloc, behind)?;
        return Ok((second_of(alloc, pair)?, rest));
    }
    parentheses(alloc, tokens)
}

/// A term of one token.
fn leaf<'t, 'a>(tokens: &'t [Token<'a>]) -> Option<(TermTree<'a>, &'t [Token<'a>])>
    ensures { MatchOption result (NoLeaf (map token_of tokens.now)) (λ r. IsLeaf (map token_of tokens.now) (term_of r.0) (map token_of r.1.now)) }
{
    if let Some((variable, rest)) = name(tokens) {
        return Some((TermTree::Named(variable), rest));
    }
    if let Some(rest) = after_word(tokens, Word::True) {
        return Some((TermTree::Truth, rest));
    }
    if let Some(rest) = after_word(tokens, Word::False) {
        return Some((TermTree::Falsity, rest));
    }
    None
}

/// The one term that stands in parentheses.
#[cycle(terms)]
fn in_parentheses<'t, 'a>(
    alloc: Global,
    tokens: &'t [Token<'a>],
) -> Result<(Box<TermTree<'a>>, &'t [Token<'a>]), Stop>
    ensures { MatchResult result (λ x. Opens (map token_of tokens.now) (term_of x.0.value) (map token_of x.1.now)) (λ e. Unopened (map token_of tokens.now) e) }
{
    let inside = expect(tokens, Symbol::OpenParenthesis)?;
    let (inner, rest) = any_term(alloc, inside)?;
    let end = expect(rest, Symbol::CloseParenthesis)?;
    Ok((inner, end))
}

#[cycle(terms)]
fn parentheses<'t, 'a>(
    alloc: Global,
    tokens: &'t [Token<'a>],
) -> Result<(Box<TermTree<'a>>, &'t [Token<'a>]), Stop>
    ensures { Gives (λ x. term_of x.0.value) (λ x. map token_of x.1.now) Parentheses (map token_of tokens.now) result }
{
    let inside = expect(tokens, Symbol::OpenParenthesis)?;
    if let Some(rest) = after_symbol(inside, Symbol::CloseParenthesis) {
        return Ok((Box::new(alloc, TermTree::Unit)?, rest));
    }
    let (first, rest) = any_term(alloc, inside)?;
    match after_symbol(rest, Symbol::Comma) {
        None => {
            let end = expect(rest, Symbol::CloseParenthesis)?;
            Ok((grouped(alloc, first)?, end))
        }
        Some(behind) => {
            let (second, rest) = any_term(alloc, behind)?;
            let end = expect(rest, Symbol::CloseParenthesis)?;
            Ok((paired(alloc, first, second)?, end))
        }
    }
}
