// The limits of names and of runs.
ghost use Rattle.std.specs.Prelude.{◌≡◌, ◌≢◌, [], map, MatchOption, MatchBool, Some, None};
ghost use Rattle.finite_lists.specs.First.{some_if};
ghost use Rattle.topos_model.specs.declared.fault.Fault.TheVariants.{TooMany};
ghost use Rattle.topos_model.specs.declared.fault.Kind.TheVariants.{Name};
ghost use Rattle.topos_text.specs.declared.symbol.Symbol.TheVariants.{Semicolon};
ghost use Rattle.topos_text.specs.Tokens.{token_of, Sign};
ghost use Rattle.topos_text.specs.Limits.{token_fault, most, begins_limited, name_len_fault};

use topos_model::Kind;
use topos_text::{Symbol, Token, Word};

/// The most bytes of a name.
const NAME_BYTES: usize = 255;

/// The most tokens of a run with a term.
const TERM_TOKENS: usize = 256;

/// The most that there may be of a kind.
pub fn limit_of(kind: Kind) -> u32
    ensures { result ≡ most kind }
{
    match kind {
        Kind::Document => 1_048_576,
        Kind::Name => 255,
        Kind::Term => 256,
        Kind::Statements => 10_000,
        Kind::Objects => 128,
        Kind::Arrows => 512,
        Kind::Elements => 256,
        Kind::Topologies => 16,
    }
}

/// What the first token that passes a limit passes.
pub fn passed_limit(tokens: &[Token<'_>]) -> Option<Kind>
    ensures { MatchOption result (token_fault [] (map token_of tokens.now) ≡ None) (λ kind. token_fault [] (map token_of tokens.now) ≡ Some (TooMany kind (most kind))) }
{
    let mut limited = false;
    let mut len = 0usize;
    for token in tokens {
        if is_long_name(token) {
            return Some(Kind::Name);
        }
        if is_semicolon(token) {
            limited = false;
            len = 0;
            continue;
        }
        if limited && len == TERM_TOKENS {
            return Some(Kind::Term);
        }
        if len == 0 {
            limited = begins_run(token);
        }
        len += 1;
    }
    None
}

/// Whether the token is a name that is too long.
#[tactic(auto, unfolding(topos_text::specs::Limits::name_len_fault))]
fn is_long_name(token: &Token<'_>) -> bool
    ensures { name_len_fault (token_of token.now) ≡ some_if result (TooMany Name 255) }
{
    match token {
        Token::Name(name) => name.text.len() > NAME_BYTES,
        _ => false,
    }
}

/// Whether the token ends a run.
fn is_semicolon(token: &Token<'_>) -> bool
    ensures { MatchBool result (token_of token.now ≡ Sign Semicolon) (token_of token.now ≢ Sign Semicolon) }
{
    match token {
        Token::Symbol(Symbol::Semicolon) => true,
        _ => false,
    }
}

/// Whether a run that begins with the token is limited.
#[tactic(auto, unfolding(topos_text::specs::Limits::begins_limited))]
fn begins_run(token: &Token<'_>) -> bool
    ensures { result ≡ begins_limited (token_of token.now) }
{
    match token {
        Token::Name(_) => true,
        Token::Word(word) => matches!(
            word,
            Word::Build
                | Word::Sub
                | Word::Let
                | Word::Show
                | Word::Classify
                | Word::Valid
                | Word::Why
                | Word::Derive
        ),
        _ => false,
    }
}
