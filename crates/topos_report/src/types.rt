// Types, by the names of their functors.
ghost use Rattle.std.specs.Prelude.{◌≡◌, ◌++◌, codes, OnOk};
ghost use Rattle.topos_report.specs.TypeTexts.{type_text};

use crate::bytes::push_bytes;
use crate::statements::push_functor_name;
use topos_model::{Doc, NoMemory, Ty};

/// Two types with a sign between them, in parentheses.
#[cycle(types)]
fn push_operation(
    out: &mut Vec<u8>,
    doc: &Doc,
    left: &Ty,
    sign: &[u8],
    right: &Ty,
) -> Result<(), NoMemory>
    ensures { OnOk result (out.new.items ≡ out.old.items ++ (codes "(" ++ type_text doc.now left.now ++ sign.now ++ type_text doc.now right.now ++ codes ")")) }
{
    push_bytes(out, b"(")?;
    push_type(out, doc, left)?;
    push_bytes(out, sign)?;
    push_type(out, doc, right)?;
    push_bytes(out, b")")
}

/// A power type.
#[cycle(types)]
fn push_power(out: &mut Vec<u8>, doc: &Doc, of: &Ty) -> Result<(), NoMemory>
    ensures { OnOk result (out.new.items ≡ out.old.items ++ (codes "Pow " ++ type_text doc.now of.now)) }
{
    push_bytes(out, b"Pow ")?;
    push_type(out, doc, of)
}

/// A type.
#[cycle(types)]
#[tactic(auto, using(crate::proofs::TypeSpellings::type_rules, topos_model::proofs::Nodes::nodes_rules))]
pub fn push_type(out: &mut Vec<u8>, doc: &Doc, ty: &Ty) -> Result<(), NoMemory>
    ensures { OnOk result (out.new.items ≡ out.old.items ++ type_text doc.now ty.now) }
{
    match ty {
        Ty::Base(functor) => push_functor_name(out, doc, *functor),
        Ty::One => push_bytes(out, b"One"),
        Ty::Omega => push_bytes(out, b"Omega"),
        Ty::Two(left, right) => push_operation(out, doc, left.get(), b" * ", right.get()),
        Ty::Pow(of) => push_power(out, doc, of.get()),
        Ty::Fun(from, to) => push_operation(out, doc, from.get(), b" -> ", to.get()),
    }
}
