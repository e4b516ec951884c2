// A variable and its type from tokens.
ghost use Rattle.std.specs.Prelude.{map, MatchResult};
ghost use Rattle.topos_text.specs.Tokens.{token_of};
ghost use Rattle.topos_grammar.specs.Gives.{Binds, Unbound};
ghost use Rattle.topos_text.specs.Views.{binding_of};

use crate::Stop;
use crate::heads::{expect, expect_name};
use crate::types::any_type;
use std::alloc::Global;
use topos_text::{Binding, Symbol, Token};

/// A variable and its type, and the tokens behind them.
pub fn bind<'t, 'a>(
    alloc: Global,
    tokens: &'t [Token<'a>],
) -> Result<(Binding<'a>, &'t [Token<'a>]), Stop>
    ensures { MatchResult result (λ x. Binds (map token_of tokens.now) (binding_of x.0) (map token_of x.1.now)) (λ e. Unbound (map token_of tokens.now) e) }
{
    let (variable, rest) = expect_name(tokens)?;
    let behind = expect(rest, Symbol::Colon)?;
    let (ty, end) = any_type(alloc, behind)?;
    Ok((Binding { variable, ty }, end))
}
