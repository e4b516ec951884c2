// The steps of derivations from tokens.
ghost use Rattle.std.specs.Prelude.{map, MatchResult};
ghost use Rattle.std.specs.Option.{option_map};
ghost use Rattle.topos_text.specs.Tokens.{token_of};
ghost use Rattle.topos_text.specs.Views.{place_of, term_of, step_of};
ghost use Rattle.topos_grammar.specs.Kinds.{OfStep, Step};
ghost use Rattle.topos_grammar.specs.Codes.{call, code, places, terms, with_term, AnyName};
ghost use Rattle.topos_statements.specs.Passages.{Passes, Halts, GivesBy};

use crate::Item;
use crate::context::context;
use crate::heads::{stands_name, stands_place, stands_symbol};
use crate::item::{Listed, several};
use std::alloc::Global;
use topos_grammar::heads::{after_word, expect, expect_name};
use topos_grammar::{Stop, any_term};
use topos_text::{PlaceTree, StepTree, Symbol, TermTree, Token, Word};

/// Places with commas between them, or none.
pub fn places<'t, 'a>(
    alloc: Global,
    tokens: &'t [Token<'a>],
) -> Result<(Vec<PlaceTree<'a>>, &'t [Token<'a>]), Stop>
    ensures { MatchResult result (λ x. Passes (λ s k. places k) (map token_of tokens.now) (map place_of x.0.items) (map token_of x.1.now)) (λ e. Halts (λ s k. places k) (map token_of tokens.now) e) }
{
    if stands_place(tokens) {
        let (places, rest) = several(alloc, tokens)?;
        return Ok((places, rest));
    }
    Ok((Vec::new(alloc), tokens))
}

/// Terms with commas between them, or none where an arrow stands in front.
pub fn terms<'t, 'a>(
    alloc: Global,
    tokens: &'t [Token<'a>],
) -> Result<(Vec<Box<TermTree<'a>>>, &'t [Token<'a>]), Stop>
    ensures { MatchResult result (λ x. Passes (λ s k. terms k) (map token_of tokens.now) (map (λ t. term_of t.value) x.0.items) (map token_of x.1.now)) (λ e. Halts (λ s k. terms k) (map token_of tokens.now) e) }
{
    if stands_symbol(tokens, Symbol::Arrow) {
        return Ok((Vec::new(alloc), tokens));
    }
    let (terms, rest) = several(alloc, tokens)?;
    Ok((terms, rest))
}

/// The term behind the word `with`, where it stands in front.
pub fn with_term<'t, 'a>(
    alloc: Global,
    tokens: &'t [Token<'a>],
) -> Result<(Option<Box<TermTree<'a>>>, &'t [Token<'a>]), Stop>
    ensures { MatchResult result (λ x. Passes (λ s k. with_term k) (map token_of tokens.now) (option_map (λ t. term_of t.value) x.0) (map token_of x.1.now)) (λ e. Halts (λ s k. with_term k) (map token_of tokens.now) e) }
{
    if let Some(behind) = after_word(tokens, Word::With) {
        let (term, rest) = any_term(alloc, behind)?;
        return Ok((Some(term), rest));
    }
    Ok((None, tokens))
}

/// A step of a derivation.
pub fn step<'t, 'a>(
    alloc: Global,
    tokens: &'t [Token<'a>],
) -> Result<(StepTree<'a>, &'t [Token<'a>]), Stop>
    ensures { GivesBy (λ x. step_of x.0) (λ x. map token_of x.1.now) (code Step) (map token_of tokens.now) result }
{
    let (rule, after_rule) = expect_name(tokens)?;
    let (from, after_from) = places(alloc, after_rule)?;
    let sequent = expect(after_from, Symbol::Colon)?;
    let (variables, after_variables) = context(alloc, sequent)?;
    let premises = expect(after_variables, Symbol::Bar)?;
    let (hypotheses, after_hypotheses) = terms(alloc, premises)?;
    let conclusions = expect(after_hypotheses, Symbol::Arrow)?;
    let (conclusion, after_conclusion) = any_term(alloc, conclusions)?;
    let (with, rest) = with_term(alloc, after_conclusion)?;
    let step = StepTree {
        rule,
        from,
        context: variables,
        hypotheses,
        conclusion,
        with_term: with,
    };
    Ok((step, rest))
}

impl<'a> Item<'a> for StepTree<'a> {
    ghost sort = { OfStep };

    ghost tree = { step_of };

    ghost passage = { λ s k. call Step k };

    fn read<'t>(
        alloc: Global,
        tokens: &'t [Token<'a>],
    ) -> Result<(StepTree<'a>, &'t [Token<'a>]), Stop> {
        step(alloc, tokens)
    }
}

impl<'a> Listed<'a> for StepTree<'a> {
    ghost class = { AnyName };

    fn begins(tokens: &[Token<'a>]) -> bool {
        stands_name(tokens)
    }
}
