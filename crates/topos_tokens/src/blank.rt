// White space and comments.
ghost use Rattle.std.specs.Prelude.{◌≡◌, ℕ, []};
ghost use Rattle.std.specs.Str.{chars, IsUtf8};
ghost use Rattle.topos_text.specs.Lexing.{Lexes, EndsComment, is_no_line_feed};
ghost use Rattle.topos_tokens.specs.Fronts.{Passed, NoBlank};

use crate::character::{after_char, is_white, next_char};

/// The text behind the white space and the comments in front.
pub fn after_blank(text: &str) -> &str
    ensures blank { (n : ℕ) → Lexes n (chars text.now) [] (chars result.now) }
    ensures ends { NoBlank (chars result.now) }
    ensures utf8 { IsUtf8 result.now }
{
    let mut rest = text;
    while let Some((c, behind)) = next_char(rest) {
        if is_white(c) {
            rest = behind;
            continue;
        }
        if c != '/' {
            return rest;
        }
        match after_char(behind, '/') {
            None => return rest,
            Some(comment) => rest = after_line(comment),
        }
    }
    rest
}

/// The text from the next line feed on, which is empty where there is none.
fn after_line(text: &str) -> &str
    ensures passed { Passed is_no_line_feed (chars text.now) (chars result.now) }
    ensures ends { EndsComment (chars result.now) }
    ensures utf8 { IsUtf8 result.now }
{
    let mut rest = text;
    while let Some((c, behind)) = next_char(rest) {
        if c == '\n' {
            return rest;
        }
        rest = behind;
    }
    rest
}
