// Lines of texts that are refused.
ghost use Rattle.std.specs.Prelude.{◌≡◌, ◌++◌, codes, decimal, OnOk};
ghost use Rattle.topos_model.specs.declared.fault.Fault.TheVariants.{NotText, BadToken, Syntax, TooMany, NameTwice, NameUnknown};
ghost use Rattle.topos_report.specs.Refusals.{kind_text, token_text, refused, refusal_line};

use crate::bytes::{push_bytes, push_number};
use crate::refusals::push_refused;
use topos_model::{Doc, Kind, NoMemory};

/// What a limit counts.
#[tactic(auto, unfolding(crate::specs::Refusals::kind_text))]
fn kind_word(kind: Kind) -> &'static [u8]
    ensures { result.now ≡ kind_text kind }
{
    match kind {
        Kind::Document => b"document",
        Kind::Name => b"name",
        Kind::Term => b"term",
        Kind::Statements => b"statements",
        Kind::Objects => b"objects",
        Kind::Arrows => b"arrows",
        Kind::Elements => b"elements",
        Kind::Topologies => b"topologies",
    }
}

#[tactic(auto, unfolding(crate::specs::Refusals::token_text))]
fn push_token(out: &mut Vec<u8>, token: u32, text: &[u8]) -> Result<(), NoMemory>
    ensures { OnOk result (out.new.items ≡ out.old.items ++ token_text token text.now) }
{
    push_bytes(out, b"token ")?;
    push_number(out, u64::from(token))?;
    push_bytes(out, b" ")?;
    push_bytes(out, text)
}

fn push_limit(out: &mut Vec<u8>, kind: Kind, limit: u32) -> Result<(), NoMemory>
    ensures { OnOk result (out.new.items ≡ out.old.items ++ (kind_text kind ++ codes " " ++ decimal limit)) }
{
    push_bytes(out, kind_word(kind))?;
    push_bytes(out, b" ")?;
    push_number(out, u64::from(limit))
}

/// The line of a refusal whose text ends with a number.
pub fn push_counted(out: &mut Vec<u8>, at: Option<u32>, text: &[u8], n: u32) -> Result<(), NoMemory>
    ensures { OnOk result (out.new.items ≡ out.old.items ++ refused at (text.now ++ decimal n)) }
{
    push_refused(out, at, text)?;
    push_number(out, u64::from(n))?;
    push_bytes(out, b"\n")
}

#[tactic(auto, unfolding(crate::specs::Refusals::refusal_line))]
pub fn push_not_text(
    out: &mut Vec<u8>,
    doc: &Doc,
    at: Option<u32>,
    byte: u32,
) -> Result<(), NoMemory>
    ensures { OnOk result (out.new.items ≡ out.old.items ++ refusal_line doc.now at (NotText byte)) }
{
    push_counted(out, at, b"10 not text: byte ", byte)
}

#[tactic(auto, unfolding(crate::specs::Refusals::refusal_line))]
pub fn push_bad_token(
    out: &mut Vec<u8>,
    doc: &Doc,
    at: Option<u32>,
    byte: u32,
) -> Result<(), NoMemory>
    ensures { OnOk result (out.new.items ≡ out.old.items ++ refusal_line doc.now at (BadToken byte)) }
{
    push_counted(out, at, b"12 bad token: byte ", byte)
}

#[tactic(auto, unfolding(crate::specs::Refusals::refusal_line))]
pub fn push_syntax(
    out: &mut Vec<u8>,
    doc: &Doc,
    at: Option<u32>,
    token: u32,
) -> Result<(), NoMemory>
    ensures { OnOk result (out.new.items ≡ out.old.items ++ refusal_line doc.now at (Syntax token)) }
{
    push_counted(out, at, b"13 syntax: token ", token)
}

#[tactic(auto, unfolding(crate::specs::Refusals::refusal_line))]
pub fn push_too_many(
    out: &mut Vec<u8>,
    doc: &Doc,
    at: Option<u32>,
    kind: Kind,
    limit: u32,
) -> Result<(), NoMemory>
    ensures { OnOk result (out.new.items ≡ out.old.items ++ refusal_line doc.now at (TooMany kind limit)) }
{
    push_refused(out, at, b"14 too many: ")?;
    push_limit(out, kind, limit)?;
    push_bytes(out, b"\n")
}

#[tactic(auto, unfolding(crate::specs::Refusals::refusal_line))]
pub fn push_name_twice(
    out: &mut Vec<u8>,
    doc: &Doc,
    at: Option<u32>,
    token: u32,
    text: &[u8],
) -> Result<(), NoMemory>
    ensures { OnOk result (out.new.items ≡ out.old.items ++ refusal_line doc.now at (NameTwice token text.now)) }
{
    push_refused(out, at, b"20 name twice: ")?;
    push_token(out, token, text)?;
    push_bytes(out, b"\n")
}

#[tactic(auto, unfolding(crate::specs::Refusals::refusal_line))]
pub fn push_name_unknown(
    out: &mut Vec<u8>,
    doc: &Doc,
    at: Option<u32>,
    token: u32,
    text: &[u8],
) -> Result<(), NoMemory>
    ensures { OnOk result (out.new.items ≡ out.old.items ++ refusal_line doc.now at (NameUnknown token text.now)) }
{
    push_refused(out, at, b"21 name unknown: ")?;
    push_token(out, token, text)?;
    push_bytes(out, b"\n")
}
