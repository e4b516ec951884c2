// The entries of presheaves, of maps and of functors of categories from tokens.
ghost use Rattle.std.specs.Prelude.{map, MatchResult};
ghost use Rattle.topos_text.specs.declared.word.Word.TheVariants as word;
ghost use Rattle.topos_text.specs.Tokens.{token_of};
ghost use Rattle.topos_text.specs.Views.{entry_of, section_of, element_of, mapping_of, map_at_of, sent_of};
ghost use Rattle.topos_grammar.specs.Kinds.{OfEntry, OfMapping, OfSection, OfMapAt, OfSent, Section, Element, MapAt, Sent};
ghost use Rattle.topos_grammar.specs.Codes.{call, code, entry, mapping, the, section_words};
ghost use Rattle.topos_statements.specs.Passages.{Passes, Halts, GivesBy};

use crate::Item;
use crate::heads::{expect_place, stands};
use crate::item::{Listed, several};
use crate::names::{name_behind, name_past};
use crate::site::arrow_name;
use std::alloc::Global;
use topos_grammar::Stop;
use topos_grammar::heads::{after_word, expect, expect_name, name};
use topos_text::{
    ElementTree, EntryTree, MapAtTree, MappingTree, SectionTree, SentTree, Symbol, Token, Word,
};

/// An element, and the one that it is restricted to.
pub fn entry<'t, 'a>(tokens: &'t [Token<'a>]) -> Result<(EntryTree<'a>, &'t [Token<'a>]), Stop>
    ensures { MatchResult result (λ x. Passes (λ s k. entry k) (map token_of tokens.now) (entry_of x.0) (map token_of x.1.now)) (λ e. Halts (λ s k. entry k) (map token_of tokens.now) e) }
{
    let (from, after_from) = expect_name(tokens)?;
    let (to, rest) = name_past(after_from, Symbol::Arrow)?;
    Ok((EntryTree { from, to }, rest))
}

/// The elements of a presheaf at an object, or its restrictions along an arrow.
pub fn section<'t, 'a>(
    alloc: Global,
    tokens: &'t [Token<'a>],
) -> Result<(SectionTree<'a>, &'t [Token<'a>]), Stop>
    ensures { GivesBy (λ x. section_of x.0) (λ x. map token_of x.1.now) (code Section) (map token_of tokens.now) result }
{
    if let Some(behind) = after_word(tokens, Word::At) {
        let (object, after_object) = expect_name(behind)?;
        let at = expect(after_object, Symbol::Colon)?;
        let (elements, rest) = several(alloc, at)?;
        return Ok((SectionTree::At { object, elements }, rest));
    }
    let (arrow, after_arrow) = name_behind(tokens, Word::Along)?;
    let along = expect(after_arrow, Symbol::Colon)?;
    let (entries, rest) = several(alloc, along)?;
    Ok((SectionTree::Along { arrow, entries }, rest))
}

/// An element by its name, or by its number.
pub fn element<'t, 'a>(tokens: &'t [Token<'a>]) -> Result<(ElementTree<'a>, &'t [Token<'a>]), Stop>
    ensures { GivesBy (λ x. element_of x.0) (λ x. map token_of x.1.now) (code Element) (map token_of tokens.now) result }
{
    if let Some((found, rest)) = name(tokens) {
        return Ok((ElementTree::ByName(found), rest));
    }
    let (found, rest) = expect_place(tokens)?;
    let by_place = ElementTree::ByPlace {
        number: found.number,
        written: found.written,
    };
    Ok((by_place, rest))
}

/// An element, and the one that a map sends it to.
pub fn mapping<'t, 'a>(tokens: &'t [Token<'a>]) -> Result<(MappingTree<'a>, &'t [Token<'a>]), Stop>
    ensures { MatchResult result (λ x. Passes (λ s k. mapping k) (map token_of tokens.now) (mapping_of x.0) (map token_of x.1.now)) (λ e. Halts (λ s k. mapping k) (map token_of tokens.now) e) }
{
    let (from, after_from) = element(tokens)?;
    let sent = expect(after_from, Symbol::Arrow)?;
    let (to, rest) = element(sent)?;
    Ok((MappingTree { from, to }, rest))
}

/// The entries of a map at an object.
pub fn map_at<'t, 'a>(
    alloc: Global,
    tokens: &'t [Token<'a>],
) -> Result<(MapAtTree<'a>, &'t [Token<'a>]), Stop>
    ensures { GivesBy (λ x. map_at_of x.0) (λ x. map token_of x.1.now) (code MapAt) (map token_of tokens.now) result }
{
    let (object, after_object) = name_behind(tokens, Word::At)?;
    let at = expect(after_object, Symbol::Colon)?;
    let (entries, rest) = several(alloc, at)?;
    Ok((MapAtTree { object, entries }, rest))
}

/// Where a functor of categories sends an object or an arrow.
pub fn sent<'t, 'a>(tokens: &'t [Token<'a>]) -> Result<(SentTree<'a>, &'t [Token<'a>]), Stop>
    ensures { GivesBy (λ x. sent_of x.0) (λ x. map token_of x.1.now) (code Sent) (map token_of tokens.now) result }
{
    if let Some(behind) = after_word(tokens, Word::At) {
        let (object, after_object) = expect_name(behind)?;
        let (to, rest) = name_past(after_object, Symbol::Colon)?;
        return Ok((SentTree::ObjectTo { object, to }, rest));
    }
    let (arrow, after_arrow) = name_behind(tokens, Word::Along)?;
    let along = expect(after_arrow, Symbol::Colon)?;
    let (image, rest) = arrow_name(along)?;
    Ok((SentTree::ArrowTo { arrow, to: image }, rest))
}

impl<'a> Item<'a> for EntryTree<'a> {
    ghost sort = { OfEntry };

    ghost tree = { entry_of };

    ghost passage = { λ s k. entry k };

    fn read<'t>(
        _alloc: Global,
        tokens: &'t [Token<'a>],
    ) -> Result<(EntryTree<'a>, &'t [Token<'a>]), Stop> {
        entry(tokens)
    }
}

impl<'a> Item<'a> for MappingTree<'a> {
    ghost sort = { OfMapping };

    ghost tree = { mapping_of };

    ghost passage = { λ s k. mapping k };

    fn read<'t>(
        _alloc: Global,
        tokens: &'t [Token<'a>],
    ) -> Result<(MappingTree<'a>, &'t [Token<'a>]), Stop> {
        mapping(tokens)
    }
}

impl<'a> Item<'a> for SectionTree<'a> {
    ghost sort = { OfSection };

    ghost tree = { section_of };

    ghost passage = { λ s k. call Section k };

    fn read<'t>(
        alloc: Global,
        tokens: &'t [Token<'a>],
    ) -> Result<(SectionTree<'a>, &'t [Token<'a>]), Stop> {
        section(alloc, tokens)
    }
}

impl<'a> Listed<'a> for SectionTree<'a> {
    ghost class = { section_words };

    fn begins(tokens: &[Token<'a>]) -> bool {
        stands(tokens, Word::At) || stands(tokens, Word::Along)
    }
}

impl<'a> Item<'a> for MapAtTree<'a> {
    ghost sort = { OfMapAt };

    ghost tree = { map_at_of };

    ghost passage = { λ s k. call MapAt k };

    fn read<'t>(
        alloc: Global,
        tokens: &'t [Token<'a>],
    ) -> Result<(MapAtTree<'a>, &'t [Token<'a>]), Stop> {
        map_at(alloc, tokens)
    }
}

impl<'a> Listed<'a> for MapAtTree<'a> {
    ghost class = { the word.At };

    fn begins(tokens: &[Token<'a>]) -> bool {
        stands(tokens, Word::At)
    }
}

impl<'a> Item<'a> for SentTree<'a> {
    ghost sort = { OfSent };

    ghost tree = { sent_of };

    ghost passage = { λ s k. call Sent k };

    fn read<'t>(
        _alloc: Global,
        tokens: &'t [Token<'a>],
    ) -> Result<(SentTree<'a>, &'t [Token<'a>]), Stop> {
        sent(tokens)
    }
}

impl<'a> Listed<'a> for SentTree<'a> {
    ghost class = { section_words };

    fn begins(tokens: &[Token<'a>]) -> bool {
        stands(tokens, Word::At) || stands(tokens, Word::Along)
    }
}
