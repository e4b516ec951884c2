// A text as tokens.
ghost use Rattle.std.specs.Prelude.{◌≡◌, List, ◌≤◌, length, map, [], IfOk, IfErr, MatchResult};
ghost use Rattle.std.specs.Str.{chars, IsUtf8, IsValidUpTo};
ghost use Rattle.topos_text.specs.Tokens as tokens;
ghost use Rattle.topos_text.specs.Tokens.{token_of};
ghost use Rattle.topos_text.specs.Lexing.{Lexes};
ghost use Rattle.topos_text.specs.Limits.{most};
ghost use Rattle.topos_model.specs.declared.fault.Fault.TheVariants.{TooMany};
ghost use Rattle.topos_tokens.specs.declared.fault.ReadFault.TheVariants.{Refused, NoMemory};
ghost use Rattle.topos_tokens.specs.TokenFaults.{HasTokens, IsRefused, IsLexFault};

use crate::ReadFault;
use crate::blank::after_blank;
use crate::front::front;
use crate::limit::{limit_of, passed_limit};
use std::alloc::Global;
use topos_model::{Fault, Kind};
use topos_text::Token;

/// The most bytes of a text.
const DOCUMENT_BYTES: usize = 1_048_576;

/// The tokens of a text that passes no limit of texts, of names and of runs. A text without them is refused by its first fault: it is too long, or its bytes are not UTF-8,
/// or at a byte no token begins, or a token passes a limit.
pub fn tokens<'a>(alloc: Global, bytes: &'a [u8]) -> Result<Vec<Token<'a>>, ReadFault>
    ensures tokens { IfOk result (λ v. HasTokens bytes.now (map token_of v.items)) }
    ensures refused { IfErr result (λ e. IsRefused bytes.now e) }
    ensures only { (toks : List tokens.Token) → HasTokens bytes.now toks → MatchResult result (λ v. map token_of v.items ≡ toks) (λ e. e ≡ NoMemory) }
{
    if bytes.len() > DOCUMENT_BYTES {
        return Err(too_many(Kind::Document));
    }
    match text_of(bytes) {
        Err(valid) => Err(ReadFault::Refused(Fault::NotText(valid as u32))),
        Ok(text) => {
            let tokens = lex(alloc, text)?;
            match passed_limit(&tokens) {
                Some(kind) => Err(too_many(kind)),
                None => Ok(tokens),
            }
        }
    }
}

fn too_many(kind: Kind) -> ReadFault
    ensures { result ≡ Refused (TooMany kind (most kind)) }
{
    ReadFault::Refused(Fault::TooMany {
        kind,
        limit: limit_of(kind),
    })
}

/// The bytes as text, or the length of their longest front that is text.
fn text_of(bytes: &[u8]) -> Result<&str, usize>
    ensures { MatchResult result (λ s. (s.now ≡ bytes.now) × IsUtf8 bytes.now) (λ n. IsValidUpTo bytes.now n) }
{
    match std::str::from_utf8(bytes) {
        Ok(text) => Ok(text),
        Err(fault) => Err(fault.valid_up_to()),
    }
}

/// The tokens of a text.
fn lex<'a>(alloc: Global, text: &'a str) -> Result<Vec<Token<'a>>, ReadFault>
    requires { length text.now ≤ 1048576 }
    ensures tokens { IfOk result (λ v. Lexes 1 (chars text.now) (map token_of v.items) []) }
    ensures bad { IfErr result (λ e. IsLexFault text.now e) }
{
    let mut tokens = Vec::new(alloc);
    let mut rest = after_blank(text);
    while !rest.is_empty() {
        let number = tokens.len() as u32 + 1;
        match front(rest, number) {
            None => {
                let byte = text.len() - rest.len();
                return Err(ReadFault::Refused(Fault::BadToken(byte as u32)));
            }
            Some((token, behind)) => {
                tokens.push(token)?;
                rest = after_blank(behind);
            }
        }
    }
    Ok(tokens)
}
