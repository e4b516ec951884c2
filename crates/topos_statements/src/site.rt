// The statements of a site from tokens.
ghost use Rattle.std.specs.Prelude.{map};
ghost use Rattle.topos_text.specs.declared.word.Word.TheVariants as word;
ghost use Rattle.topos_text.specs.Tokens.{token_of};
ghost use Rattle.topos_text.specs.Views.{arrow_of, site_of, cover_of, covers_of, topology_of};
ghost use Rattle.topos_grammar.specs.Kinds.{OfArrow, OfSite, OfCover, OfTopology, ArrowName, SiteStatement, Cover, Covers, Topology};
ghost use Rattle.topos_grammar.specs.Codes.{call, code, the, site_words};
ghost use Rattle.topos_statements.specs.Passages.{GivesBy};

use crate::Item;
use crate::heads::{expect_word, stands};
use crate::item::{Listed, braced, each, several};
use crate::names::{name_behind, name_past};
use std::alloc::Global;
use topos_grammar::Stop;
use topos_grammar::heads::{after_symbol, after_word, expect, expect_name};
use topos_text::{ArrowTree, CoverTree, CoversTree, SiteTree, Symbol, Token, TopologyTree, Word};

/// A declared arrow, or the identity of an object.
pub fn arrow_name<'t, 'a>(tokens: &'t [Token<'a>]) -> Result<(ArrowTree<'a>, &'t [Token<'a>]), Stop>
    ensures { GivesBy (λ x. arrow_of x.0) (λ x. map token_of x.1.now) (code ArrowName) (map token_of tokens.now) result }
{
    if let Some(behind) = after_word(tokens, Word::Id) {
        let (object, rest) = expect_name(behind)?;
        return Ok((ArrowTree::Identity(object), rest));
    }
    let (arrow, rest) = expect_name(tokens)?;
    Ok((ArrowTree::Declared(arrow), rest))
}

/// Objects, arrows or a composite.
pub fn site_statement<'t, 'a>(
    alloc: Global,
    tokens: &'t [Token<'a>],
) -> Result<(SiteTree<'a>, &'t [Token<'a>]), Stop>
    ensures { GivesBy (λ x. site_of x.0) (λ x. map token_of x.1.now) (code SiteStatement) (map token_of tokens.now) result }
{
    if let Some(behind) = after_word(tokens, Word::Object) {
        let (objects, rest) = several(alloc, behind)?;
        return Ok((SiteTree::Objects(objects), rest));
    }
    if let Some(behind) = after_word(tokens, Word::Arrow) {
        let (names, after_names) = several(alloc, behind)?;
        let (dom, after_dom) = name_past(after_names, Symbol::Colon)?;
        let (cod, rest) = name_past(after_dom, Symbol::Arrow)?;
        return Ok((SiteTree::Arrows { names, dom, cod }, rest));
    }
    let (after, after_after) = name_behind(tokens, Word::Compose)?;
    let (before, after_before) = name_past(after_after, Symbol::Dot)?;
    let equated = expect(after_before, Symbol::Equals)?;
    let (arrow, rest) = arrow_name(equated)?;
    let composite = SiteTree::Composite {
        after,
        before,
        arrow,
    };
    Ok((composite, rest))
}

/// An object, and the arrows that cover it.
pub fn cover<'t, 'a>(
    alloc: Global,
    tokens: &'t [Token<'a>],
) -> Result<(CoverTree<'a>, &'t [Token<'a>]), Stop>
    ensures { GivesBy (λ x. cover_of x.0) (λ x. map token_of x.1.now) (code Cover) (map token_of tokens.now) result }
{
    let (object, after_object) = name_behind(tokens, Word::Cover)?;
    let by = expect_word(after_object, Word::By)?;
    if let Some(rest) = after_word(by, Word::None) {
        let none = CoverTree {
            object,
            arrows: Vec::new(alloc),
        };
        return Ok((none, rest));
    }
    let (arrows, rest) = several(alloc, by)?;
    Ok((CoverTree { object, arrows }, rest))
}

/// The covers of a document of the first version.
pub fn covers<'t, 'a>(
    alloc: Global,
    tokens: &'t [Token<'a>],
) -> Result<(CoversTree<'a>, &'t [Token<'a>]), Stop>
    ensures { GivesBy (λ x. covers_of x.0) (λ x. map token_of x.1.now) (code Covers) (map token_of tokens.now) result }
{
    if let Some(behind) = after_word(tokens, Word::Topology) {
        let dense = expect_word(behind, Word::Dense)?;
        let rest = expect(dense, Symbol::Semicolon)?;
        return Ok((CoversTree::Dense, rest));
    }
    let (covers, rest) = each(alloc, tokens)?;
    Ok((CoversTree::Listed(covers), rest))
}

/// A topology and its name.
pub fn topology<'t, 'a>(
    alloc: Global,
    tokens: &'t [Token<'a>],
) -> Result<(TopologyTree<'a>, &'t [Token<'a>]), Stop>
    ensures { GivesBy (λ x. topology_of x.0) (λ x. map token_of x.1.now) (code Topology) (map token_of tokens.now) result }
{
    let (name, after_name) = name_behind(tokens, Word::Topology)?;
    if let Some(behind) = after_symbol(after_name, Symbol::Equals) {
        let rest = expect_word(behind, Word::Dense)?;
        let dense = TopologyTree {
            name,
            covers: CoversTree::Dense,
        };
        return Ok((dense, rest));
    }
    let (covers, rest) = braced(alloc, after_name)?;
    let listed = TopologyTree {
        name,
        covers: CoversTree::Listed(covers),
    };
    Ok((listed, rest))
}

impl<'a> Item<'a> for ArrowTree<'a> {
    ghost sort = { OfArrow };

    ghost tree = { arrow_of };

    ghost passage = { λ s k. call ArrowName k };

    fn read<'t>(
        _alloc: Global,
        tokens: &'t [Token<'a>],
    ) -> Result<(ArrowTree<'a>, &'t [Token<'a>]), Stop> {
        arrow_name(tokens)
    }
}

impl<'a> Item<'a> for SiteTree<'a> {
    ghost sort = { OfSite };

    ghost tree = { site_of };

    ghost passage = { λ s k. call SiteStatement k };

    fn read<'t>(
        alloc: Global,
        tokens: &'t [Token<'a>],
    ) -> Result<(SiteTree<'a>, &'t [Token<'a>]), Stop> {
        site_statement(alloc, tokens)
    }
}

impl<'a> Listed<'a> for SiteTree<'a> {
    ghost class = { site_words };

    fn begins(tokens: &[Token<'a>]) -> bool {
        stands(tokens, Word::Object) || stands(tokens, Word::Arrow) || stands(tokens, Word::Compose)
    }
}

impl<'a> Item<'a> for CoverTree<'a> {
    ghost sort = { OfCover };

    ghost tree = { cover_of };

    ghost passage = { λ s k. call Cover k };

    fn read<'t>(
        alloc: Global,
        tokens: &'t [Token<'a>],
    ) -> Result<(CoverTree<'a>, &'t [Token<'a>]), Stop> {
        cover(alloc, tokens)
    }
}

impl<'a> Listed<'a> for CoverTree<'a> {
    ghost class = { the word.Cover };

    fn begins(tokens: &[Token<'a>]) -> bool {
        stands(tokens, Word::Cover)
    }
}

impl<'a> Item<'a> for TopologyTree<'a> {
    ghost sort = { OfTopology };

    ghost tree = { topology_of };

    ghost passage = { λ s k. call Topology k };

    fn read<'t>(
        alloc: Global,
        tokens: &'t [Token<'a>],
    ) -> Result<(TopologyTree<'a>, &'t [Token<'a>]), Stop> {
        topology(alloc, tokens)
    }
}

impl<'a> Listed<'a> for TopologyTree<'a> {
    ghost class = { the word.Topology };

    fn begins(tokens: &[Token<'a>]) -> bool {
        stands(tokens, Word::Topology)
    }
}
