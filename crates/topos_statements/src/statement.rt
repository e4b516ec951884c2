// Statements from tokens, by their first words.
ghost use Rattle.std.specs.Prelude.{map};
ghost use Rattle.topos_text.specs.Tokens.{token_of};
ghost use Rattle.topos_text.specs.Views.{statement_of};
ghost use Rattle.topos_grammar.specs.Kinds.{Statement};
ghost use Rattle.topos_grammar.specs.Codes.{code};
ghost use Rattle.topos_statements.specs.Passages.{GivesBy};
ghost use Rattle.topos_statements.specs.Views.{version_of};

use crate::Version;
use crate::constructions::{construct, empty, extended, forked, hom, image, sheaf, sheafify};
use crate::declarations::{category, category_functor, map_of, presheaf};
use crate::formulas::{asked, build, derive, let_be, local, subobject, valid, why};
use crate::heads::first_word;
use std::alloc::Global;
use topos_grammar::Stop;
use topos_text::{Construction, Extension, Fork, Question, StatementTree, Token, Word};

/// A statement, and the tokens behind it.
pub fn statement<'t, 'a>(
    alloc: Global,
    version: Version,
    tokens: &'t [Token<'a>],
) -> Result<(Box<StatementTree<'a>>, &'t [Token<'a>]), Stop>
    ensures { GivesBy (λ x. statement_of x.0.value) (λ x. map token_of x.1.now) (code (Statement (version_of version))) (map token_of tokens.now) result }
{
    let Some((word, rest)) = first_word(tokens) else {
        return Err(Stop::At(tokens.len()));
    };
    match word {
        Word::Presheaf => presheaf(alloc, rest),
        Word::Map => map_of(alloc, rest),
        Word::Product => construct(alloc, Construction::Product, rest),
        Word::Equalizer => forked(alloc, Fork::Equalizer, rest),
        Word::Pullback => construct(alloc, Construction::Pullback, rest),
        Word::Image => image(alloc, rest),
        Word::Empty => empty(alloc, rest),
        Word::Coproduct => construct(alloc, Construction::Coproduct, rest),
        Word::Coequalizer => forked(alloc, Fork::Coequalizer, rest),
        Word::Pushout => construct(alloc, Construction::Pushout, rest),
        Word::Sheafify => sheafify(alloc, version, rest),
        Word::Sheaf => sheaf(alloc, version, rest),
        Word::Hom => hom(alloc, rest),
        Word::Build => build(alloc, version, rest),
        Word::Sub => subobject(alloc, version, rest),
        Word::Let => let_be(alloc, version, rest),
        Word::Show => asked(alloc, Question::Show, version, rest),
        Word::Classify => asked(alloc, Question::Classify, version, rest),
        Word::Valid => valid(alloc, version, rest),
        Word::Why => why(alloc, version, rest),
        Word::Derive => derive(alloc, version, rest),
        Word::Local => local(alloc, rest),
        Word::Category => category(alloc, rest),
        Word::Functor => category_functor(alloc, rest),
        Word::Lan => extended(alloc, Extension::Left, rest),
        Word::Ran => extended(alloc, Extension::Right, rest),
        _ => Err(Stop::At(tokens.len())),
    }
}
