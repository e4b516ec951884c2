// The characters of a text, one by one.
ghost use Rattle.std.specs.Prelude.{◌≡◌, ◌∷◌, ◌++◌, ℕ, [], List, MatchOption, ◌==◌, ◌||◌};
ghost use Rattle.std.specs.Str.{chars, IsUtf8, encode_utf8_all};
ghost use Rattle.topos_text.specs.Spelling.{starts_name, continues_name, is_digit};
ghost use Rattle.topos_text.specs.Lexing.{is_space};

/// The first character, and the text behind it.
pub fn next_char(text: &str) -> Option<(char, &str)>
    ensures characters { MatchOption result (chars text.now ≡ []) (λ r. chars text.now ≡ r.0 ∷ chars r.1.now) }
    ensures utf8 { MatchOption result (text.now ≡ []) (λ r. IsUtf8 r.1.now) }
{
    let mut rest = text.chars();
    let first = rest.next()?;
    Some((first, rest.as_str()))
}

/// The text behind the wanted character, where it stands in front.
pub fn after_char(text: &str, want: char) -> Option<&str>
    ensures characters { MatchOption result ((cs : List ℕ) → chars text.now ≡ want ∷ cs → ⊥) (λ r. chars text.now ≡ want ∷ chars r.now) }
    ensures utf8 { MatchOption result (text.now ≡ text.now) (λ r. IsUtf8 r.now) }
{
    match next_char(text) {
        Some((c, behind)) if c == want => Some(behind),
        _ => None,
    }
}

/// The bytes before the rest of a text.
pub fn bytes_before<'a>(text: &'a str, rest: &str) -> &'a [u8]
    requires rest { (front : List ℕ) × (chars text.now ≡ front ++ chars rest.now) }
    ensures { (front : List ℕ) → chars text.now ≡ front ++ chars rest.now → result.now ≡ encode_utf8_all front }
{
    &text.as_bytes()[..text.len() - rest.len()]
}

/// Whether a name may begin with the character.
pub fn is_start(c: char) -> bool
    ensures { result ≡ starts_name c }
{
    unicode_ident::is_xid_start(c) | (c == '_')
}

/// Whether a name may go on with the character.
pub fn is_continue(c: char) -> bool
    ensures { result ≡ continues_name c }
{
    unicode_ident::is_xid_continue(c) | (c == '\'')
}

pub fn is_white(c: char) -> bool
    ensures { result ≡ is_space c }
{
    (c == ' ') | (c == '\t') | (c == '\n') | (c == '\r')
}

pub fn is_decimal(c: char) -> bool
    ensures { result ≡ is_digit c }
{
    c.is_ascii_digit()
}
