// Values of types.
ghost use Rattle.std.specs.Prelude.{◌≡◌, ◌++◌, codes, OnOk};
ghost use Rattle.topos_report.specs.Lists.{comma_separated};
ghost use Rattle.topos_report.specs.Names.{arrow_name};
ghost use Rattle.topos_report.specs.Values.{pair_text, sieve_text, entry_text, subset_text, assign_text, function_text, value_text, tuple_text};

use crate::bytes::{push_bytes, push_separator};
use crate::names::{ends, push_arrow, push_element};
use crate::parts::{arrows, assigns, entries, first, number, second};
use topos_model::{Assign, Doc, Entry, NoMemory, Tuple, Ty, Val};

/// Arrows with commas between them.
pub fn push_arrows(out: &mut Vec<u8>, doc: &Doc, arrows: &[u32]) -> Result<(), NoMemory>
    ensures { OnOk result (out.new.items ≡ out.old.items ++ comma_separated (arrow_name doc.now) arrows.now) }
{
    for (i, f) in arrows.iter().enumerate() {
        push_separator(out, i)?;
        push_arrow(out, doc, *f)?;
    }
    Ok(())
}

/// An element of `Omega`, from its arrows.
#[tactic(auto, unfolding(crate::specs::Values::sieve_text))]
pub fn push_sieve(out: &mut Vec<u8>, doc: &Doc, arrows: &[u32]) -> Result<(), NoMemory>
    ensures { OnOk result (out.new.items ≡ out.old.items ++ sieve_text doc.now arrows.now) }
{
    push_bytes(out, b"{")?;
    push_arrows(out, doc, arrows)?;
    push_bytes(out, b"}")
}

/// An arrow and a colon.
fn push_place(out: &mut Vec<u8>, doc: &Doc, f: u32) -> Result<(), NoMemory>
    ensures { OnOk result (out.new.items ≡ out.old.items ++ (arrow_name doc.now f ++ codes ": ")) }
{
    push_arrow(out, doc, f)?;
    push_bytes(out, b": ")
}

/// An element of a product type.
#[cycle(values)]
#[tactic(auto, unfolding(crate::specs::Values::pair_text))]
fn push_pair(
    out: &mut Vec<u8>,
    doc: &Doc,
    left: &Ty,
    right: &Ty,
    c: u32,
    v: &Val,
) -> Result<(), NoMemory>
    ensures { OnOk result (out.new.items ≡ out.old.items ++ pair_text doc.now (value_text doc.now left.now c) (value_text doc.now right.now c) v.now) }
{
    let star = Val::Star;
    push_bytes(out, b"(")?;
    push_value(out, doc, left, c, first(v, &star))?;
    push_bytes(out, b", ")?;
    push_value(out, doc, right, c, second(v, &star))?;
    push_bytes(out, b")")
}

#[cycle(values)]
#[tactic(auto, unfolding(crate::specs::Values::entry_text))]
fn push_entry(out: &mut Vec<u8>, doc: &Doc, of: &Ty, entry: &Entry) -> Result<(), NoMemory>
    ensures { OnOk result (out.new.items ≡ out.old.items ++ entry_text doc.now (value_text doc.now of.now) entry.now) }
{
    push_place(out, doc, entry.arrow)?;
    push_value(out, doc, of, ends(doc, entry.arrow).0, &entry.val)
}

/// An element of a power type, from its entries.
#[cycle(values)]
#[tactic(auto, unfolding(crate::specs::Values::subset_text))]
fn push_subset(out: &mut Vec<u8>, doc: &Doc, of: &Ty, entries: &[Entry]) -> Result<(), NoMemory>
    ensures { OnOk result (out.new.items ≡ out.old.items ++ subset_text doc.now (value_text doc.now of.now) entries.now) }
{
    push_bytes(out, b"{")?;
    for (i, entry) in entries.iter().enumerate() {
        push_separator(out, i)?;
        push_entry(out, doc, of, entry)?;
    }
    push_bytes(out, b"}")
}

#[cycle(values)]
#[tactic(auto, unfolding(crate::specs::Values::assign_text))]
fn push_assign(
    out: &mut Vec<u8>,
    doc: &Doc,
    from: &Ty,
    to: &Ty,
    assign: &Assign,
) -> Result<(), NoMemory>
    ensures { OnOk result (out.new.items ≡ out.old.items ++ assign_text doc.now (value_text doc.now from.now) (value_text doc.now to.now) assign.now) }
{
    let c = ends(doc, assign.arrow).0;
    push_place(out, doc, assign.arrow)?;
    push_value(out, doc, from, c, &assign.val)?;
    push_bytes(out, b" -> ")?;
    push_value(out, doc, to, c, &assign.to)
}

/// An element of a function type, from its assignments.
#[cycle(values)]
#[tactic(auto, unfolding(crate::specs::Values::function_text))]
fn push_function(
    out: &mut Vec<u8>,
    doc: &Doc,
    from: &Ty,
    to: &Ty,
    assigns: &[Assign],
) -> Result<(), NoMemory>
    ensures { OnOk result (out.new.items ≡ out.old.items ++ function_text doc.now (value_text doc.now from.now) (value_text doc.now to.now) assigns.now) }
{
    push_bytes(out, b"{")?;
    for (i, assign) in assigns.iter().enumerate() {
        push_separator(out, i)?;
        push_assign(out, doc, from, to, assign)?;
    }
    push_bytes(out, b"}")
}

/// The value v of the type at the object c.
#[cycle(values)]
#[tactic(auto, using(crate::proofs::Spellings::spelling_rules, topos_model::proofs::Nodes::nodes_rules))]
fn push_value(out: &mut Vec<u8>, doc: &Doc, ty: &Ty, c: u32, v: &Val) -> Result<(), NoMemory>
    ensures { OnOk result (out.new.items ≡ out.old.items ++ value_text doc.now ty.now c v.now) }
{
    match ty {
        Ty::Base(functor) => push_element(out, doc, *functor, c, number(v)),
        Ty::One => push_bytes(out, b"()"),
        Ty::Omega => push_sieve(out, doc, arrows(v)),
        Ty::Two(left, right) => push_pair(out, doc, left.get(), right.get(), c, v),
        Ty::Pow(of) => push_subset(out, doc, of.get(), entries(v)),
        Ty::Fun(from, to) => push_function(out, doc, from.get(), to.get(), assigns(v)),
    }
}

/// The same, for lists of values: an element of a functor, their most frequent value, is spelled outside the recursion.
#[tactic(auto, using(crate::proofs::Spellings::spelling_rules))]
pub fn push_listed(out: &mut Vec<u8>, doc: &Doc, ty: &Ty, c: u32, v: &Val) -> Result<(), NoMemory>
    ensures { OnOk result (out.new.items ≡ out.old.items ++ value_text doc.now ty.now c v.now) }
{
    match ty {
        Ty::Base(functor) => push_element(out, doc, *functor, c, number(v)),
        _ => push_value(out, doc, ty, c, v),
    }
}

/// The values of variables of these types at the object c.
#[tactic(auto, unfolding(crate::specs::Values::tuple_text))]
pub fn push_tuple(
    out: &mut Vec<u8>,
    doc: &Doc,
    types: &[Ty],
    c: u32,
    tuple: &Tuple,
) -> Result<(), NoMemory>
    ensures { OnOk result (out.new.items ≡ out.old.items ++ tuple_text doc.now types.now c tuple.now) }
{
    let vals = tuple.vals.as_slice();
    push_bytes(out, b"(")?;
    for i in 0..types.len().min(vals.len()) {
        push_separator(out, i)?;
        push_listed(out, doc, &types[i], c, &vals[i])?;
    }
    push_bytes(out, b")")
}
