// Symbols.
ghost use Rattle.std.specs.Prelude.{◌≡◌, ◌≢◌, ◌∷◌, false, ℕ, MatchOption};
ghost use Rattle.std.specs.Str.{chars, IsUtf8};
ghost use Rattle.topos_text.specs.Tokens.{Sign};
ghost use Rattle.topos_text.specs.Spelling.{starts_name};
ghost use Rattle.topos_tokens.specs.Fronts.{IsFront, NoToken};

use crate::character::after_char;
use topos_text::Symbol;

/// The symbol that the first character begins, the longer one where two begin there, and the text behind it.
pub fn symbol(first: char, behind: &str) -> Option<(Symbol, &str)>
    requires no_name { starts_name first ≡ false }
    requires no_place { first ≢ 35 }
    ensures front { MatchOption result (NoToken (first ∷ chars behind.now)) (λ r. (n : ℕ) → IsFront n (first ∷ chars behind.now) (Sign r.0) (chars r.1.now)) }
    ensures utf8 { MatchOption result (behind.now ≡ behind.now) (λ r. IsUtf8 r.1.now) }
{
    match first {
        ';' => Some((Symbol::Semicolon, behind)),
        ':' => Some((Symbol::Colon, behind)),
        ',' => Some((Symbol::Comma, behind)),
        '.' => Some((Symbol::Dot, behind)),
        '{' => Some((Symbol::OpenBrace, behind)),
        '}' => Some((Symbol::CloseBrace, behind)),
        '(' => Some((Symbol::OpenParenthesis, behind)),
        ')' => Some((Symbol::CloseParenthesis, behind)),
        '|' => Some((Symbol::Bar, behind)),
        '*' => Some((Symbol::Star, behind)),
        '-' => arrow(behind),
        '=' => Some(equals(behind)),
        _ => None,
    }
}

/// `->`
fn arrow(behind: &str) -> Option<(Symbol, &str)>
    ensures front { MatchOption result (NoToken (45 ∷ chars behind.now)) (λ r. (n : ℕ) → IsFront n (45 ∷ chars behind.now) (Sign r.0) (chars r.1.now)) }
    ensures utf8 { MatchOption result (behind.now ≡ behind.now) (λ r. IsUtf8 r.1.now) }
{
    match after_char(behind, '>') {
        Some(rest) => Some((Symbol::Arrow, rest)),
        None => None,
    }
}

/// `=>` or `=`
fn equals(behind: &str) -> (Symbol, &str)
    ensures front { (n : ℕ) → IsFront n (61 ∷ chars behind.now) (Sign result.0) (chars result.1.now) }
    ensures utf8 { IsUtf8 result.1.now }
{
    match after_char(behind, '>') {
        Some(rest) => (Symbol::Implies, rest),
        None => (Symbol::Equals, behind),
    }
}
