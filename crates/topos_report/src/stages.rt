// Lists of tuples at each object.
ghost use Rattle.std.specs.Prelude.{◌≡◌, ◌++◌, [], get_or, OnOk};
ghost use Rattle.topos_report.specs.Stages.{tuples_line, tuples_list};

use crate::bytes::push_bytes;
use crate::names::push_object;
use crate::values::push_tuple;
use topos_model::{Doc, NoMemory, Row, Tuple, Ty};

/// The tuples at place i, and none where there is no such place.
pub fn tuples_at(stages: &[Row<Tuple>], i: u32) -> &[Tuple]
    ensures { result.now ≡ get_or stages.now i [] }
{
    match stages.get(i as usize) {
        Some(tuples) => tuples.as_slice(),
        None => &[],
    }
}

/// The tuples of an object.
#[tactic(auto, unfolding(crate::specs::Stages::tuples_line))]
pub fn push_tuples_line(
    out: &mut Vec<u8>,
    doc: &Doc,
    types: &[Ty],
    c: u32,
    tuples: &[Tuple],
) -> Result<(), NoMemory>
    ensures { OnOk result (out.new.items ≡ out.old.items ++ tuples_line doc.now types.now c tuples.now) }
{
    push_object(out, doc, c)?;
    push_bytes(out, b":")?;
    for tuple in tuples {
        push_bytes(out, b" ")?;
        push_tuple(out, doc, types, c, tuple)?;
    }
    push_bytes(out, b"\n")
}

/// A line for each object.
#[tactic(auto, unfolding(crate::specs::Stages::tuples_list))]
pub fn push_tuples_list(
    out: &mut Vec<u8>,
    doc: &Doc,
    types: &[Ty],
    stages: &[Row<Tuple>],
) -> Result<(), NoMemory>
    ensures { OnOk result (out.new.items ≡ out.old.items ++ tuples_list doc.now types.now stages.now) }
{
    for c in 0..doc.cat.objects {
        push_tuples_line(out, doc, types, c, tuples_at(stages, c))?;
    }
    Ok(())
}
