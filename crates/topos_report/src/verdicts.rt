// The lines of `classify` and `valid`.
ghost use Rattle.std.specs.Prelude.{◌≡◌, ◌++◌, [], codes, get_or, flat_map, OnOk};
ghost use Rattle.std.specs.List.{list_all, range_with_len};
ghost use Rattle.topos_report.specs.AnswerLines.{heading, is_empty, unforced_line, verdict_lines, classified_line, classified_at};

use crate::bytes::{push_bytes, push_number};
use crate::names::push_object;
use crate::stages::{push_tuples_line, tuples_at};
use crate::values::{push_sieve, push_tuple};
use topos_model::{Doc, NoMemory, Row, Tuple, Ty};

/// Whether no object has a tuple.
fn are_empty(stages: &[Row<Tuple>]) -> bool
    ensures { result ≡ list_all is_empty stages.now }
{
    for tuples in stages {
        if tuples.len() > 0 {
            return false;
        }
    }
    true
}

/// The tuples of an object that has some.
#[tactic(auto, unfolding(crate::specs::AnswerLines::unforced_line))]
fn push_unforced_line(
    out: &mut Vec<u8>,
    doc: &Doc,
    types: &[Ty],
    stages: &[Row<Tuple>],
    c: u32,
) -> Result<(), NoMemory>
    ensures { OnOk result (out.new.items ≡ out.old.items ++ unforced_line doc.now types.now stages.now c) }
{
    let tuples = tuples_at(stages, c);
    if tuples.is_empty() {
        Ok(())
    } else {
        push_tuples_line(out, doc, types, c, tuples)
    }
}

/// The tuples of all objects that have some.
fn push_unforced_lines(
    out: &mut Vec<u8>,
    doc: &Doc,
    types: &[Ty],
    stages: &[Row<Tuple>],
) -> Result<(), NoMemory>
    ensures { OnOk result (out.new.items ≡ out.old.items ++ flat_map (unforced_line doc.now types.now stages.now) (range_with_len 0 doc.now.cat.objects)) }
{
    for c in 0..doc.cat.objects {
        push_unforced_line(out, doc, types, stages, c)?;
    }
    Ok(())
}

/// Whether a formula is valid, and the tuples at which it is not forced.
#[tactic(auto, unfolding(crate::specs::AnswerLines::heading, crate::specs::AnswerLines::verdict_lines))]
pub fn push_verdict(
    out: &mut Vec<u8>,
    doc: &Doc,
    k: u64,
    types: &[Ty],
    unforced: &[Row<Tuple>],
) -> Result<(), NoMemory>
    ensures { OnOk result (out.new.items ≡ out.old.items ++ verdict_lines doc.now k types.now unforced.now) }
{
    push_number(out, k)?;
    if are_empty(unforced) {
        push_bytes(out, b" valid\n")
    } else {
        push_bytes(out, b" not valid\n")?;
        push_unforced_lines(out, doc, types, unforced)
    }
}

/// The classified tuples at place i, and none where there is no such place.
fn classified_tuples(stages: &[Row<(Tuple, Row<u32>)>], i: u32) -> &[(Tuple, Row<u32>)]
    ensures { result.now ≡ get_or stages.now i [] }
{
    match stages.get(i as usize) {
        Some(tuples) => tuples.as_slice(),
        None => &[],
    }
}

/// A tuple and the arrows along which the formula is forced.
#[tactic(auto, unfolding(crate::specs::AnswerLines::classified_line))]
fn push_classified_line(
    out: &mut Vec<u8>,
    doc: &Doc,
    types: &[Ty],
    c: u32,
    classified: &(Tuple, Row<u32>),
) -> Result<(), NoMemory>
    ensures { OnOk result (out.new.items ≡ out.old.items ++ classified_line doc.now types.now c classified.now) }
{
    push_object(out, doc, c)?;
    push_bytes(out, b" ")?;
    push_tuple(out, doc, types, c, &classified.0)?;
    push_bytes(out, b": ")?;
    push_sieve(out, doc, classified.1.as_slice())?;
    push_bytes(out, b"\n")
}

/// A line for each tuple of an object.
fn push_classified_lines(
    out: &mut Vec<u8>,
    doc: &Doc,
    types: &[Ty],
    c: u32,
    tuples: &[(Tuple, Row<u32>)],
) -> Result<(), NoMemory>
    ensures { OnOk result (out.new.items ≡ out.old.items ++ flat_map (classified_line doc.now types.now c) tuples.now) }
{
    for classified in tuples {
        push_classified_line(out, doc, types, c, classified)?;
    }
    Ok(())
}

/// A line for each object and each of its tuples.
#[tactic(auto, unfolding(crate::specs::AnswerLines::classified_at))]
fn push_classified_stages(
    out: &mut Vec<u8>,
    doc: &Doc,
    types: &[Ty],
    stages: &[Row<(Tuple, Row<u32>)>],
) -> Result<(), NoMemory>
    ensures { OnOk result (out.new.items ≡ out.old.items ++ flat_map (classified_at doc.now types.now stages.now) (range_with_len 0 doc.now.cat.objects)) }
{
    for c in 0..doc.cat.objects {
        push_classified_lines(out, doc, types, c, classified_tuples(stages, c))?;
    }
    Ok(())
}

/// Each tuple with the arrows along which a formula is forced.
#[tactic(auto, unfolding(crate::specs::AnswerLines::heading))]
pub fn push_classified(
    out: &mut Vec<u8>,
    doc: &Doc,
    k: u64,
    types: &[Ty],
    stages: &[Row<(Tuple, Row<u32>)>],
) -> Result<(), NoMemory>
    ensures { OnOk result (out.new.items ≡ out.old.items ++ (heading k (codes "classify") ++ flat_map (classified_at doc.now types.now stages.now) (range_with_len 0 doc.now.cat.objects))) }
{
    push_number(out, k)?;
    push_bytes(out, b" classify\n")?;
    push_classified_stages(out, doc, types, stages)
}
