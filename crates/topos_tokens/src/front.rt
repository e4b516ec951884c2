// The token in front.
ghost use Rattle.std.specs.Prelude.{◌≡◌, ◌∷◌, ◌≤◌, ℕ, MatchOption};
ghost use Rattle.std.specs.Str.{chars, IsUtf8};
ghost use Rattle.topos_text.specs.Tokens.{token_of};
ghost use Rattle.topos_tokens.specs.Fronts.{IsFront, NoToken, IsDigits, NoDigits};

use crate::character::{bytes_before, is_decimal, is_start, next_char};
use crate::symbol::symbol;
use crate::word::name_or_word;
use topos_text::{Token, Written};

/// The most digits of a place.
const DIGITS: usize = 9;

/// The token in front, which gets the number, and the text behind it.
pub fn front<'a>(text: &'a str, number: u32) -> Option<(Token<'a>, &'a str)>
    ensures token { MatchOption result (NoToken (chars text.now)) (λ r. IsFront number (chars text.now) (token_of r.0) (chars r.1.now)) }
    ensures utf8 { MatchOption result (text.now ≡ text.now) (λ r. IsUtf8 r.1.now) }
{
    let Some((first, behind)) = next_char(text) else {
        return None;
    };
    if is_start(first) {
        return Some(name_or_word(text, number));
    }
    if first == '#' {
        return place(text, behind, number);
    }
    match symbol(first, behind) {
        Some((symbol, rest)) => Some((Token::Symbol(symbol), rest)),
        None => None,
    }
}

/// The place in front, whose digits stand behind `#`.
fn place<'a>(text: &'a str, behind: &'a str, number: u32) -> Option<(Token<'a>, &'a str)>
    requires { chars text.now ≡ 35 ∷ chars behind.now }
    ensures token { MatchOption result (NoToken (chars text.now)) (λ r. IsFront number (chars text.now) (token_of r.0) (chars r.1.now)) }
    ensures utf8 { MatchOption result (text.now ≡ text.now) (λ r. IsUtf8 r.1.now) }
{
    let Some((value, rest)) = digits(behind) else {
        return None;
    };
    let written = Written {
        text: bytes_before(text, rest),
        token: number,
    };
    Some((
        Token::Place {
            number: value,
            written,
        },
        rest,
    ))
}

/// The number that the one to nine digits in front stand for, and the text behind them.
fn digits(text: &str) -> Option<(u32, &str)>
    ensures number { MatchOption result (NoDigits (chars text.now)) (λ r. IsDigits (chars text.now) r.0 (chars r.1.now)) }
    ensures utf8 { MatchOption result (text.now ≡ text.now) (λ r. IsUtf8 r.1.now) }
{
    let mut rest = text;
    let mut value = 0u32;
    let mut count = 0usize;
    while let Some((c, behind)) = next_char(rest) {
        if !is_decimal(c) {
            break;
        }
        if count == DIGITS {
            return None;
        }
        value = value * 10 + (c as u32 - 48);
        count += 1;
        rest = behind;
    }
    if count == 0 {
        return None;
    }
    Some((value, rest))
}
