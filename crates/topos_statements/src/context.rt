// Contexts, and what stands behind them, from tokens.
ghost use Rattle.std.specs.Prelude.{map, MatchResult};
ghost use Rattle.topos_text.specs.Tokens.{token_of};
ghost use Rattle.topos_text.specs.Views.{binding_of, term_of};
ghost use Rattle.topos_grammar.specs.Kinds.{Context};
ghost use Rattle.topos_grammar.specs.Codes.{code};
ghost use Rattle.topos_statements.specs.Passages.{Passes, Halts, GivesBy, sequent_of, comprehension_of};

use crate::heads::stands_name;
use crate::item::several;
use std::alloc::Global;
use topos_grammar::heads::expect;
use topos_grammar::{Stop, any_term};
use topos_text::{Binding, Symbol, TermTree, Token};

/// Variables and their types.
pub fn context<'t, 'a>(
    alloc: Global,
    tokens: &'t [Token<'a>],
) -> Result<(Vec<Binding<'a>>, &'t [Token<'a>]), Stop>
    ensures { GivesBy (λ x. map binding_of x.0.items) (λ x. map token_of x.1.now) (code Context) (map token_of tokens.now) result }
{
    if stands_name(tokens) {
        let (variables, rest) = several(alloc, tokens)?;
        return Ok((variables, rest));
    }
    Ok((Vec::new(alloc), tokens))
}

/// A context and a term, with a bar between them.
pub fn sequent<'t, 'a>(
    alloc: Global,
    tokens: &'t [Token<'a>],
) -> Result<(Vec<Binding<'a>>, Box<TermTree<'a>>, &'t [Token<'a>]), Stop>
    ensures { MatchResult result (λ x. Passes sequent_of (map token_of tokens.now) (map binding_of x.0.items, term_of x.1.value) (map token_of x.2.now)) (λ e. Halts sequent_of (map token_of tokens.now) e) }
{
    let (variables, after_variables) = context(alloc, tokens)?;
    let inner = expect(after_variables, Symbol::Bar)?;
    let (term, rest) = any_term(alloc, inner)?;
    Ok((variables, term, rest))
}

/// A context and a term in braces.
pub fn comprehension<'t, 'a>(
    alloc: Global,
    tokens: &'t [Token<'a>],
) -> Result<(Vec<Binding<'a>>, Box<TermTree<'a>>, &'t [Token<'a>]), Stop>
    ensures { MatchResult result (λ x. Passes comprehension_of (map token_of tokens.now) (map binding_of x.0.items, term_of x.1.value) (map token_of x.2.now)) (λ e. Halts comprehension_of (map token_of tokens.now) e) }
{
    let inside = expect(tokens, Symbol::OpenBrace)?;
    let (variables, term, after_term) = sequent(alloc, inside)?;
    let rest = expect(after_term, Symbol::CloseBrace)?;
    Ok((variables, term, rest))
}
