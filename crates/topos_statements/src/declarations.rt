// Declarations of presheaves, maps, categories and functors of categories from tokens.
ghost use Rattle.std.specs.Prelude.{map};
ghost use Rattle.topos_text.specs.Tokens.{token_of};
ghost use Rattle.topos_text.specs.Views.{statement_of};
ghost use Rattle.topos_grammar.specs.Codes.{presheaf, map_of, category, category_functor};
ghost use Rattle.topos_statements.specs.Passages.{GivesBy};

use crate::item::braced;
use crate::names::{name_behind, name_past};
use std::alloc::Global;
use topos_grammar::Stop;
use topos_grammar::heads::{after_symbol, after_word, expect_name};
use topos_text::{StatementTree, Symbol, Token, Word};

/// A presheaf on the site or on a second category.
pub fn presheaf<'t, 'a>(
    alloc: Global,
    tokens: &'t [Token<'a>],
) -> Result<(Box<StatementTree<'a>>, &'t [Token<'a>]), Stop>
    ensures { GivesBy (λ x. statement_of x.0.value) (λ x. map token_of x.1.now) presheaf (map token_of tokens.now) result }
{
    let (name, after_name) = expect_name(tokens)?;
    if let Some(of) = after_word(after_name, Word::Of) {
        let (category, after_category) = expect_name(of)?;
        let (sections, rest) = braced(alloc, after_category)?;
        let presheaf = StatementTree::PresheafOn {
            name,
            category,
            sections,
        };
        return Ok((Box::new(alloc, presheaf)?, rest));
    }
    let (entries, rest) = braced(alloc, after_name)?;
    let presheaf = StatementTree::Presheaf {
        name,
        sections: entries,
    };
    Ok((Box::new(alloc, presheaf)?, rest))
}

/// A map.
pub fn map_of<'t, 'a>(
    alloc: Global,
    tokens: &'t [Token<'a>],
) -> Result<(Box<StatementTree<'a>>, &'t [Token<'a>]), Stop>
    ensures { GivesBy (λ x. statement_of x.0.value) (λ x. map token_of x.1.now) map_of (map token_of tokens.now) result }
{
    let (name, after_name) = expect_name(tokens)?;
    let (dom, after_dom) = name_past(after_name, Symbol::Colon)?;
    let (cod, after_cod) = name_past(after_dom, Symbol::Arrow)?;
    let (parts, rest) = braced(alloc, after_cod)?;
    let map = StatementTree::Map {
        name,
        dom,
        cod,
        parts,
    };
    Ok((Box::new(alloc, map)?, rest))
}

/// A second category.
pub fn category<'t, 'a>(
    alloc: Global,
    tokens: &'t [Token<'a>],
) -> Result<(Box<StatementTree<'a>>, &'t [Token<'a>]), Stop>
    ensures { GivesBy (λ x. statement_of x.0.value) (λ x. map token_of x.1.now) category (map token_of tokens.now) result }
{
    let (name, after_name) = expect_name(tokens)?;
    let (statements, rest) = braced(alloc, after_name)?;
    Ok((
        Box::new(alloc, StatementTree::Category { name, statements })?,
        rest,
    ))
}

/// A functor of categories, or the presheaf restricted along one.
pub fn category_functor<'t, 'a>(
    alloc: Global,
    tokens: &'t [Token<'a>],
) -> Result<(Box<StatementTree<'a>>, &'t [Token<'a>]), Stop>
    ensures { GivesBy (λ x. statement_of x.0.value) (λ x. map token_of x.1.now) category_functor (map token_of tokens.now) result }
{
    let (name, after_name) = expect_name(tokens)?;
    if let Some(behind) = after_symbol(after_name, Symbol::Colon) {
        let (dom, after_dom) = expect_name(behind)?;
        let (sent, rest) = braced(alloc, after_dom)?;
        let declared = StatementTree::CategoryFunctor { name, dom, sent };
        return Ok((Box::new(alloc, declared)?, rest));
    }
    let (of, after_of) = expect_name(after_name)?;
    let (functor, rest) = name_behind(after_of, Word::As)?;
    let restricted = StatementTree::Restricted {
        along: name,
        of,
        functor,
    };
    Ok((Box::new(alloc, restricted)?, rest))
}
