// Objects, arrows and elements of functors, by their names.
ghost use Rattle.std.specs.Prelude.{◌≡◌, ◌++◌, [], get_or, OnOk};
ghost use Rattle.topos_report.specs.Names.{object_name, arrow_name, element_name, name_or_number};
ghost use Rattle.topos_report.specs.Values.{ends_of};

use crate::bytes::{push_byte, push_bytes, push_number};
use topos_model::{Doc, Name, NoMemory, Row};

/// The name number i, and nothing where there is none.
fn name_at(names: &[Name], i: u32) -> &[u8]
    ensures { result.now ≡ get_or names.now i [] }
{
    match names.get(i as usize) {
        Some(name) => name.as_slice(),
        None => &[],
    }
}

/// The list of names at place i, and the empty one where there is none.
fn names_at(lists: &[Row<Name>], i: u32) -> &[Name]
    ensures { result.now ≡ get_or lists.now i [] }
{
    match lists.get(i as usize) {
        Some(names) => names.as_slice(),
        None => &[],
    }
}

/// The name of the object c.
pub fn push_object(out: &mut Vec<u8>, doc: &Doc, c: u32) -> Result<(), NoMemory>
    ensures { OnOk result (out.new.items ≡ out.old.items ++ object_name doc.now c) }
{
    push_bytes(out, name_at(doc.objects.as_slice(), c))
}

/// The name of the arrow f; of an identity, `id` and its object.
#[tactic(auto, unfolding(crate::specs::Names::arrow_name))]
pub fn push_arrow(out: &mut Vec<u8>, doc: &Doc, f: u32) -> Result<(), NoMemory>
    ensures { OnOk result (out.new.items ≡ out.old.items ++ arrow_name doc.now f) }
{
    let objects = doc.cat.objects;
    if f < objects {
        push_bytes(out, b"id ")?;
        push_object(out, doc, f)
    } else {
        push_bytes(out, name_at(doc.arrows.as_slice(), f - objects))
    }
}

/// The name of the declared arrow number i, counted without the identities.
pub fn push_arrow_name(out: &mut Vec<u8>, doc: &Doc, i: usize) -> Result<(), NoMemory>
    ensures { OnOk result (out.new.items ≡ out.old.items ++ get_or doc.now.arrows i []) }
{
    match doc.arrows.as_slice().get(i) {
        Some(name) => push_bytes(out, name.as_slice()),
        None => Ok(()),
    }
}

#[tactic(auto, unfolding(crate::specs::Names::name_or_number))]
fn push_name_or_number(
    out: &mut Vec<u8>,
    names: &Option<Row<Row<Name>>>,
    c: u32,
    x: u32,
) -> Result<(), NoMemory>
    ensures { OnOk result (out.new.items ≡ out.old.items ++ name_or_number names.now c x) }
{
    match names {
        Some(names) => push_bytes(out, name_at(names_at(names.as_slice(), c), x)),
        None => {
            push_byte(out, b'#')?;
            push_number(out, u64::from(x))
        }
    }
}

/// The element number x of a functor at the object c.
#[tactic(auto, unfolding(crate::specs::Names::element_name, crate::specs::Names::name_or_number))]
pub fn push_element(
    out: &mut Vec<u8>,
    doc: &Doc,
    functor: u32,
    c: u32,
    x: u32,
) -> Result<(), NoMemory>
    ensures { OnOk result (out.new.items ≡ out.old.items ++ element_name doc.now functor c x) }
{
    match doc.functors.as_slice().get(functor as usize) {
        Some(declared) => push_name_or_number(out, &declared.elements, c, x),
        None => Ok(()),
    }
}

/// The domain and the codomain of an arrow, and the object 0 where there is no such arrow.
#[tactic(auto, using(crate::proofs::Ends::ends_rules), unfolding(crate::specs::Values::ends_of))]
pub fn ends(doc: &Doc, f: u32) -> (u32, u32)
    ensures { result ≡ ends_of doc.now f }
{
    let objects = doc.cat.objects;
    if f < objects {
        return (f, f);
    }
    match doc.cat.ends.as_slice().get((f - objects) as usize) {
        Some(ends) => *ends,
        None => (0, 0),
    }
}
