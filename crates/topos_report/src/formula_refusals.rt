// Lines of formulas that are refused.
ghost use Rattle.std.specs.Prelude.{◌≡◌, ◌++◌, OnOk};
ghost use Rattle.topos_model.specs.declared.fault.Fault.TheVariants.{Expected, TypeTooLarge, NotASheaf, NotAFunction, NotAPower, NotAPair};
ghost use Rattle.topos_report.specs.TypeTexts.{type_text};
ghost use Rattle.topos_report.specs.Refusals.{refused, refusal_line};

use crate::bytes::push_bytes;
use crate::refusals::push_refused;
use crate::statements::push_functor_name;
use crate::text_refusals::push_counted;
use crate::types::push_type;
use topos_model::{Doc, NoMemory, Ty};

#[tactic(auto, unfolding(crate::specs::Refusals::refusal_line))]
pub fn push_expected(
    out: &mut Vec<u8>,
    doc: &Doc,
    at: Option<u32>,
    needed: &Ty,
    found: &Ty,
) -> Result<(), NoMemory>
    ensures { OnOk result (out.new.items ≡ out.old.items ++ refusal_line doc.now at (Expected needed.now found.now)) }
{
    push_refused(out, at, b"60 expected: ")?;
    push_type(out, doc, needed)?;
    push_bytes(out, b", found: ")?;
    push_type(out, doc, found)?;
    push_bytes(out, b"\n")
}

#[tactic(auto, unfolding(crate::specs::Refusals::refusal_line))]
pub fn push_type_too_large(
    out: &mut Vec<u8>,
    doc: &Doc,
    at: Option<u32>,
    nodes: u32,
) -> Result<(), NoMemory>
    ensures { OnOk result (out.new.items ≡ out.old.items ++ refusal_line doc.now at (TypeTooLarge nodes)) }
{
    push_counted(out, at, b"61 type too large: ", nodes)
}

#[tactic(auto, unfolding(crate::specs::Refusals::refusal_line))]
pub fn push_not_a_sheaf(
    out: &mut Vec<u8>,
    doc: &Doc,
    at: Option<u32>,
    functor: u32,
) -> Result<(), NoMemory>
    ensures { OnOk result (out.new.items ≡ out.old.items ++ refusal_line doc.now at (NotASheaf functor)) }
{
    push_refused(out, at, b"62 not a sheaf: ")?;
    push_functor_name(out, doc, functor)?;
    push_bytes(out, b"\n")
}

/// The line of a refusal whose text ends with the type that was found.
fn push_found(
    out: &mut Vec<u8>,
    doc: &Doc,
    at: Option<u32>,
    text: &[u8],
    found: &Ty,
) -> Result<(), NoMemory>
    ensures { OnOk result (out.new.items ≡ out.old.items ++ refused at (text.now ++ type_text doc.now found.now)) }
{
    push_refused(out, at, text)?;
    push_type(out, doc, found)?;
    push_bytes(out, b"\n")
}

#[tactic(auto, unfolding(crate::specs::Refusals::refusal_line))]
pub fn push_not_a_function(
    out: &mut Vec<u8>,
    doc: &Doc,
    at: Option<u32>,
    found: &Ty,
) -> Result<(), NoMemory>
    ensures { OnOk result (out.new.items ≡ out.old.items ++ refusal_line doc.now at (NotAFunction found.now)) }
{
    push_found(out, doc, at, b"63 not a function: ", found)
}

#[tactic(auto, unfolding(crate::specs::Refusals::refusal_line))]
pub fn push_not_a_power(
    out: &mut Vec<u8>,
    doc: &Doc,
    at: Option<u32>,
    found: &Ty,
) -> Result<(), NoMemory>
    ensures { OnOk result (out.new.items ≡ out.old.items ++ refusal_line doc.now at (NotAPower found.now)) }
{
    push_found(out, doc, at, b"64 not a power: ", found)
}

#[tactic(auto, unfolding(crate::specs::Refusals::refusal_line))]
pub fn push_not_a_pair(
    out: &mut Vec<u8>,
    doc: &Doc,
    at: Option<u32>,
    found: &Ty,
) -> Result<(), NoMemory>
    ensures { OnOk result (out.new.items ≡ out.old.items ++ refusal_line doc.now at (NotAPair found.now)) }
{
    push_found(out, doc, at, b"65 not a pair: ", found)
}
