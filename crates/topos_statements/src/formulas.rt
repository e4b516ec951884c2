// Statements with types, terms and formulas from tokens.
ghost use Rattle.std.specs.Prelude.{map};
ghost use Rattle.topos_text.specs.Tokens.{token_of};
ghost use Rattle.topos_text.specs.Views.{statement_of, question_of};
ghost use Rattle.topos_grammar.specs.Codes.{build, subobject, let_be, asked, valid, why, derive, local};
ghost use Rattle.topos_statements.specs.Passages.{GivesBy};
ghost use Rattle.topos_statements.specs.Views.{version_of};

use crate::context::{comprehension, sequent};
use crate::heads::{expect_place, expect_word, stands};
use crate::item::braced;
use crate::names::{name_behind, name_past};
use crate::version::under;
use crate::{Item, Version};
use std::alloc::Global;
use topos_grammar::heads::{expect, expect_name};
use topos_grammar::{Stop, any_term, any_type};
use topos_text::{Binding, Question, StatementTree, Symbol, Token, Word};

/// The functor of a type.
pub fn build<'t, 'a>(
    alloc: Global,
    version: Version,
    tokens: &'t [Token<'a>],
) -> Result<(Box<StatementTree<'a>>, &'t [Token<'a>]), Stop>
    ensures { GivesBy (λ x. statement_of x.0.value) (λ x. map token_of x.1.now) (build (version_of version)) (map token_of tokens.now) result }
{
    let (under, after_under) = under(version, tokens)?;
    let (functor, after_functor) = expect_name(after_under)?;
    let of = expect_word(after_functor, Word::Of)?;
    let (ty, after_ty) = any_type(alloc, of)?;
    let (into, after_into) = name_behind(after_ty, Word::With)?;
    let (out_of, rest) = name_past(after_into, Symbol::Comma)?;
    let statement = StatementTree::Build {
        under,
        functor,
        ty,
        into,
        out_of,
    };
    Ok((Box::new(alloc, statement)?, rest))
}

/// The subobject of a formula.
pub fn subobject<'t, 'a>(
    alloc: Global,
    version: Version,
    tokens: &'t [Token<'a>],
) -> Result<(Box<StatementTree<'a>>, &'t [Token<'a>]), Stop>
    ensures { GivesBy (λ x. statement_of x.0.value) (λ x. map token_of x.1.now) (subobject (version_of version)) (map token_of tokens.now) result }
{
    let (under, after_under) = under(version, tokens)?;
    let (functor, after_functor) = expect_name(after_under)?;
    let of = expect_word(after_functor, Word::Of)?;
    let inside = expect(of, Symbol::OpenBrace)?;
    let (binding, after_binding) = Binding::read(alloc, inside)?;
    let body = expect(after_binding, Symbol::Bar)?;
    let (formula, after_formula) = any_term(alloc, body)?;
    let closed = expect(after_formula, Symbol::CloseBrace)?;
    let (inclusion, rest) = name_behind(closed, Word::With)?;
    let statement = StatementTree::Sub {
        under,
        functor,
        binding,
        formula,
        inclusion,
    };
    Ok((Box::new(alloc, statement)?, rest))
}

/// The map of a term.
pub fn let_be<'t, 'a>(
    alloc: Global,
    version: Version,
    tokens: &'t [Token<'a>],
) -> Result<(Box<StatementTree<'a>>, &'t [Token<'a>]), Stop>
    ensures { GivesBy (λ x. statement_of x.0.value) (λ x. map token_of x.1.now) (let_be (version_of version)) (map token_of tokens.now) result }
{
    let (under, after_under) = under(version, tokens)?;
    let (map, after_map) = expect_name(after_under)?;
    let equated = expect(after_map, Symbol::Equals)?;
    let (binding, after_binding) = Binding::read(alloc, equated)?;
    let body = expect(after_binding, Symbol::Dot)?;
    let (term, rest) = any_term(alloc, body)?;
    let statement = StatementTree::Let {
        under,
        map,
        binding,
        term,
    };
    Ok((Box::new(alloc, statement)?, rest))
}

/// A formula in braces, and what is asked of it.
pub fn asked<'t, 'a>(
    alloc: Global,
    question: Question,
    version: Version,
    tokens: &'t [Token<'a>],
) -> Result<(Box<StatementTree<'a>>, &'t [Token<'a>]), Stop>
    ensures { GivesBy (λ x. statement_of x.0.value) (λ x. map token_of x.1.now) (asked (question_of question) (version_of version)) (map token_of tokens.now) result }
{
    let (under, after_under) = under(version, tokens)?;
    let (context, formula, rest) = comprehension(alloc, after_under)?;
    let statement = StatementTree::Ask {
        question,
        under,
        context,
        formula,
    };
    Ok((Box::new(alloc, statement)?, rest))
}

/// Whether a formula is valid.
pub fn valid<'t, 'a>(
    alloc: Global,
    version: Version,
    tokens: &'t [Token<'a>],
) -> Result<(Box<StatementTree<'a>>, &'t [Token<'a>]), Stop>
    ensures { GivesBy (λ x. statement_of x.0.value) (λ x. map token_of x.1.now) (valid (version_of version)) (map token_of tokens.now) result }
{
    let (under, after_under) = under(version, tokens)?;
    let (context, formula, rest) = sequent(alloc, after_under)?;
    let statement = StatementTree::Ask {
        question: Question::Valid,
        under,
        context,
        formula,
    };
    Ok((Box::new(alloc, statement)?, rest))
}

/// Why a formula is forced or not.
pub fn why<'t, 'a>(
    alloc: Global,
    version: Version,
    tokens: &'t [Token<'a>],
) -> Result<(Box<StatementTree<'a>>, &'t [Token<'a>]), Stop>
    ensures { GivesBy (λ x. statement_of x.0.value) (λ x. map token_of x.1.now) (why (version_of version)) (map token_of tokens.now) result }
{
    let (under, after_under) = under(version, tokens)?;
    let (object, after_object) = expect_name(after_under)?;
    let (tuple, after_tuple) = expect_place(after_object)?;
    let of = expect_word(after_tuple, Word::Of)?;
    let (context, formula, rest) = comprehension(alloc, of)?;
    let statement = StatementTree::Why {
        under,
        object,
        tuple,
        context,
        formula,
    };
    Ok((Box::new(alloc, statement)?, rest))
}

/// A derivation.
pub fn derive<'t, 'a>(
    alloc: Global,
    version: Version,
    tokens: &'t [Token<'a>],
) -> Result<(Box<StatementTree<'a>>, &'t [Token<'a>]), Stop>
    ensures { GivesBy (λ x. statement_of x.0.value) (λ x. map token_of x.1.now) (derive (version_of version)) (map token_of tokens.now) result }
{
    let (under, after_under) = under(version, tokens)?;
    let (steps, rest) = braced(alloc, after_under)?;
    Ok((
        Box::new(alloc, StatementTree::Derive { under, steps })?,
        rest,
    ))
}

/// A local operator, by its map or by a topology.
pub fn local<'t, 'a>(
    alloc: Global,
    tokens: &'t [Token<'a>],
) -> Result<(Box<StatementTree<'a>>, &'t [Token<'a>]), Stop>
    ensures { GivesBy (λ x. statement_of x.0.value) (λ x. map token_of x.1.now) local (map token_of tokens.now) result }
{
    let (operator, after_operator) = expect_name(tokens)?;
    if stands(after_operator, Word::As) {
        let (map, rest) = name_behind(after_operator, Word::As)?;
        let named = StatementTree::LocalAs { operator, map };
        return Ok((Box::new(alloc, named)?, rest));
    }
    Ok((
        Box::new(alloc, StatementTree::Local(operator))?,
        after_operator,
    ))
}
