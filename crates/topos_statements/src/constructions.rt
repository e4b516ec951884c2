// Constructions of functors from tokens.
ghost use Rattle.std.specs.Prelude.{map};
ghost use Rattle.topos_text.specs.Tokens.{token_of};
ghost use Rattle.topos_text.specs.Views.{statement_of, construction_of, fork_of, extension_of};
ghost use Rattle.topos_grammar.specs.Codes.{construct, forked, image, empty, sheafify, sheaf, hom, extended};
ghost use Rattle.topos_statements.specs.Passages.{GivesBy};
ghost use Rattle.topos_statements.specs.Views.{version_of};

use crate::Version;
use crate::names::{name_behind, name_past};
use crate::version::under;
use std::alloc::Global;
use topos_grammar::Stop;
use topos_grammar::heads::expect_name;
use topos_text::{Construction, Extension, Fork, StatementTree, Symbol, Token, Word};

/// The construction of two functors or of two maps.
pub fn construct<'t, 'a>(
    alloc: Global,
    of: Construction,
    tokens: &'t [Token<'a>],
) -> Result<(Box<StatementTree<'a>>, &'t [Token<'a>]), Stop>
    ensures { GivesBy (λ x. statement_of x.0.value) (λ x. map token_of x.1.now) (construct (construction_of of)) (map token_of tokens.now) result }
{
    let (left, after_left) = expect_name(tokens)?;
    let (right, after_right) = expect_name(after_left)?;
    let (functor, after_functor) = name_behind(after_right, Word::As)?;
    let (first, after_first) = name_behind(after_functor, Word::With)?;
    let (second, rest) = name_past(after_first, Symbol::Comma)?;
    let statement = StatementTree::Construct {
        of,
        left,
        right,
        functor,
        first,
        second,
    };
    Ok((Box::new(alloc, statement)?, rest))
}

/// An equalizer or a coequalizer.
pub fn forked<'t, 'a>(
    alloc: Global,
    of: Fork,
    tokens: &'t [Token<'a>],
) -> Result<(Box<StatementTree<'a>>, &'t [Token<'a>]), Stop>
    ensures { GivesBy (λ x. statement_of x.0.value) (λ x. map token_of x.1.now) (forked (fork_of of)) (map token_of tokens.now) result }
{
    let (left, after_left) = expect_name(tokens)?;
    let (right, after_right) = expect_name(after_left)?;
    let (functor, after_functor) = name_behind(after_right, Word::As)?;
    let (map, rest) = name_behind(after_functor, Word::With)?;
    let statement = StatementTree::Forked {
        of,
        left,
        right,
        functor,
        map,
    };
    Ok((Box::new(alloc, statement)?, rest))
}

/// The image of a map.
pub fn image<'t, 'a>(
    alloc: Global,
    tokens: &'t [Token<'a>],
) -> Result<(Box<StatementTree<'a>>, &'t [Token<'a>]), Stop>
    ensures { GivesBy (λ x. statement_of x.0.value) (λ x. map token_of x.1.now) image (map token_of tokens.now) result }
{
    let (of, after_of) = expect_name(tokens)?;
    let (functor, after_functor) = name_behind(after_of, Word::As)?;
    let (onto, after_onto) = name_behind(after_functor, Word::With)?;
    let (inclusion, rest) = name_past(after_onto, Symbol::Comma)?;
    let statement = StatementTree::Image {
        of,
        functor,
        onto,
        inclusion,
    };
    Ok((Box::new(alloc, statement)?, rest))
}

/// The empty functor.
pub fn empty<'t, 'a>(
    alloc: Global,
    tokens: &'t [Token<'a>],
) -> Result<(Box<StatementTree<'a>>, &'t [Token<'a>]), Stop>
    ensures { GivesBy (λ x. statement_of x.0.value) (λ x. map token_of x.1.now) empty (map token_of tokens.now) result }
{
    let (functor, rest) = name_behind(tokens, Word::As)?;
    Ok((Box::new(alloc, StatementTree::Empty(functor))?, rest))
}

/// The associated sheaf of a functor.
pub fn sheafify<'t, 'a>(
    alloc: Global,
    version: Version,
    tokens: &'t [Token<'a>],
) -> Result<(Box<StatementTree<'a>>, &'t [Token<'a>]), Stop>
    ensures { GivesBy (λ x. statement_of x.0.value) (λ x. map token_of x.1.now) (sheafify (version_of version)) (map token_of tokens.now) result }
{
    let (under, after_under) = under(version, tokens)?;
    let (of, after_of) = expect_name(after_under)?;
    let (functor, after_functor) = name_behind(after_of, Word::As)?;
    let (unit, rest) = name_behind(after_functor, Word::With)?;
    let statement = StatementTree::Sheafify {
        under,
        of,
        functor,
        unit,
    };
    Ok((Box::new(alloc, statement)?, rest))
}

/// Whether a functor is a sheaf.
pub fn sheaf<'t, 'a>(
    alloc: Global,
    version: Version,
    tokens: &'t [Token<'a>],
) -> Result<(Box<StatementTree<'a>>, &'t [Token<'a>]), Stop>
    ensures { GivesBy (λ x. statement_of x.0.value) (λ x. map token_of x.1.now) (sheaf (version_of version)) (map token_of tokens.now) result }
{
    let (under, after_under) = under(version, tokens)?;
    let (functor, rest) = expect_name(after_under)?;
    Ok((
        Box::new(alloc, StatementTree::Sheaf { under, functor })?,
        rest,
    ))
}

/// The maps of one functor to another.
pub fn hom<'t, 'a>(
    alloc: Global,
    tokens: &'t [Token<'a>],
) -> Result<(Box<StatementTree<'a>>, &'t [Token<'a>]), Stop>
    ensures { GivesBy (λ x. statement_of x.0.value) (λ x. map token_of x.1.now) hom (map token_of tokens.now) result }
{
    let (dom, after_dom) = expect_name(tokens)?;
    let (cod, rest) = expect_name(after_dom)?;
    Ok((Box::new(alloc, StatementTree::Hom { dom, cod })?, rest))
}

/// The extension of a presheaf along a functor of categories.
pub fn extended<'t, 'a>(
    alloc: Global,
    of: Extension,
    tokens: &'t [Token<'a>],
) -> Result<(Box<StatementTree<'a>>, &'t [Token<'a>]), Stop>
    ensures { GivesBy (λ x. statement_of x.0.value) (λ x. map token_of x.1.now) (extended (extension_of of)) (map token_of tokens.now) result }
{
    let (along, after_along) = expect_name(tokens)?;
    let (presheaf, after_presheaf) = expect_name(after_along)?;
    let (functor, after_functor) = name_behind(after_presheaf, Word::As)?;
    let (map, rest) = name_behind(after_functor, Word::With)?;
    let statement = StatementTree::Extended {
        of,
        along,
        presheaf,
        functor,
        map,
    };
    Ok((Box::new(alloc, statement)?, rest))
}
