// The lines of `sheaf`.
ghost use Rattle.std.specs.Prelude.{◌≡◌, ◌++◌, codes, OnOk};
ghost use Rattle.std.specs.List.{zip};
ghost use Rattle.topos_report.specs.Lists.{comma_separated};
ghost use Rattle.topos_report.specs.Names.{element_name};
ghost use Rattle.topos_report.specs.AnswerLines.{heading, found_text, member_text, failing_family};

use crate::bytes::{push_bytes, push_number, push_separator};
use crate::names::{ends, push_arrow, push_element, push_object};
use crate::values::push_sieve;
use topos_model::{Doc, NoMemory};

/// The line that says that a presheaf is a sheaf.
#[tactic(auto, unfolding(crate::specs::AnswerLines::heading))]
pub fn push_sheaf(out: &mut Vec<u8>, k: u64) -> Result<(), NoMemory>
    ensures { OnOk result (out.new.items ≡ out.old.items ++ heading k (codes "sheaf")) }
{
    push_number(out, k)?;
    push_bytes(out, b" sheaf\n")
}

/// The line that says that a presheaf is not a sheaf.
#[tactic(auto, unfolding(crate::specs::AnswerLines::heading))]
pub fn push_not_sheaf(out: &mut Vec<u8>, k: u64) -> Result<(), NoMemory>
    ensures { OnOk result (out.new.items ≡ out.old.items ++ heading k (codes "not a sheaf")) }
{
    push_number(out, k)?;
    push_bytes(out, b" not a sheaf\n")
}

/// An arrow of a family, and its element.
#[tactic(auto, unfolding(crate::specs::AnswerLines::member_text))]
fn push_member(out: &mut Vec<u8>, doc: &Doc, functor: u32, f: u32, x: u32) -> Result<(), NoMemory>
    ensures { OnOk result (out.new.items ≡ out.old.items ++ member_text doc.now functor (f, x)) }
{
    push_arrow(out, doc, f)?;
    push_bytes(out, b": ")?;
    push_element(out, doc, functor, ends(doc, f).0, x)
}

/// The elements of a family on a cover, with commas between them.
fn push_members(
    out: &mut Vec<u8>,
    doc: &Doc,
    functor: u32,
    cover: &[u32],
    family: &[u32],
) -> Result<(), NoMemory>
    ensures { OnOk result (out.new.items ≡ out.old.items ++ comma_separated (member_text doc.now functor) (zip cover.now family.now)) }
{
    for i in 0..cover.len().min(family.len()) {
        push_separator(out, i)?;
        push_member(out, doc, functor, cover[i], family[i])?;
    }
    Ok(())
}

/// The two amalgamations that were found at an object, or none.
fn push_amalgamations(
    out: &mut Vec<u8>,
    doc: &Doc,
    functor: u32,
    c: u32,
    found: Option<(u32, u32)>,
) -> Result<(), NoMemory>
    ensures { OnOk result (out.new.items ≡ out.old.items ++ found_text (element_name doc.now functor c) found) }
{
    match found {
        Some((x, y)) => {
            push_element(out, doc, functor, c, x)?;
            push_bytes(out, b", ")?;
            push_element(out, doc, functor, c, y)
        }
        None => push_bytes(out, b"none"),
    }
}

/// A matching family on a cover, and the amalgamations that were found.
#[tactic(auto, unfolding(crate::specs::AnswerLines::failing_family))]
pub fn push_failing_family(
    out: &mut Vec<u8>,
    doc: &Doc,
    functor: u32,
    c: u32,
    cover: &[u32],
    family: &[u32],
    found: Option<(u32, u32)>,
) -> Result<(), NoMemory>
    ensures { OnOk result (out.new.items ≡ out.old.items ++ failing_family doc.now functor c cover.now family.now found) }
{
    push_bytes(out, b"at ")?;
    push_object(out, doc, c)?;
    push_bytes(out, b" cover ")?;
    push_sieve(out, doc, cover)?;
    push_bytes(out, b" family {")?;
    push_members(out, doc, functor, cover, family)?;
    push_bytes(out, b"} found ")?;
    push_amalgamations(out, doc, functor, c, found)?;
    push_bytes(out, b"\n")
}
