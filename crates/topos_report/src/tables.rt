// The lines of a functor that was made, and of maps.
ghost use Rattle.std.specs.Prelude.{◌≡◌, ◌++◌, [], codes, decimal, get_or, length, flat_map, map, OnOk};
ghost use Rattle.std.specs.List.{zip, range_with_len};
ghost use Rattle.topos_report.specs.Names.{naming, place_text, map_name};
ghost use Rattle.topos_report.specs.Statements.{made_maps};
ghost use Rattle.topos_report.specs.Tables.{listed, with_places, arrow_text, numbers_line, along_line, shape_lines, pair_entry, map_line, map_lines};
ghost use Rattle.topos_report.specs.AnswerLines.{heading, made_heading, built_lines, listed_map_lines};
ghost use Rattle.topos_report.specs.Lead.{lead};

use crate::bytes::{push_byte, push_bytes, push_number};
use crate::names::{push_arrow_name, push_object};
use crate::statements::{made_map, push_made_name, push_map_name, push_word};
use crate::values::push_listed;
use topos_model::{Doc, MapShape, MapTy, NoMemory, Row, Shape, Stmt, Val};

/// What stands before the entry number i behind a colon.
fn push_lead(out: &mut Vec<u8>, i: usize) -> Result<(), NoMemory>
    ensures { OnOk result (out.new.items ≡ out.old.items ++ lead i) }
{
    if i == 0 {
        push_bytes(out, b" ")
    } else {
        push_bytes(out, b", ")
    }
}

/// An element by its number alone.
#[tactic(auto, unfolding(crate::specs::Names::place_text))]
pub fn push_place(out: &mut Vec<u8>, x: u64) -> Result<(), NoMemory>
    ensures { OnOk result (out.new.items ≡ out.old.items ++ place_text x) }
{
    push_byte(out, b'#')?;
    push_number(out, x)
}

/// The same behind a space.
#[tactic(auto, unfolding(crate::specs::Names::place_text))]
fn push_spaced_place(out: &mut Vec<u8>, x: u64) -> Result<(), NoMemory>
    ensures { OnOk result (out.new.items ≡ out.old.items ++ (codes " " ++ place_text x)) }
{
    push_bytes(out, b" #")?;
    push_number(out, x)
}

/// An element and where it goes, by their numbers.
#[tactic(auto, unfolding(crate::specs::Tables::arrow_text))]
fn push_arrow_entry(out: &mut Vec<u8>, from: u64, to: u64) -> Result<(), NoMemory>
    ensures { OnOk result (out.new.items ≡ out.old.items ++ arrow_text (from, to)) }
{
    push_place(out, from)?;
    push_bytes(out, b" -> ")?;
    push_place(out, to)
}

/// The size at place i, and none where there is no such place.
fn size_at(sizes: &[u32], i: u32) -> u32
    ensures { result ≡ get_or sizes.now i 0 }
{
    match sizes.get(i as usize) {
        Some(size) => *size,
        None => 0,
    }
}

/// The row at place i, and the empty one where there is none.
fn row_at(rows: &[Row<u32>], i: usize) -> &[u32]
    ensures { result.now ≡ get_or rows.now i [] }
{
    match rows.get(i) {
        Some(row) => row.as_slice(),
        None => &[],
    }
}

/// The pairs at place i, and none where there is no such place.
fn pairs_at(stages: &[Row<(Val, Val)>], i: u32) -> &[(Val, Val)]
    ensures { result.now ≡ get_or stages.now i [] }
{
    match stages.get(i as usize) {
        Some(pairs) => pairs.as_slice(),
        None => &[],
    }
}

/// So many numbers of elements, each behind a space.
fn push_numbers(out: &mut Vec<u8>, size: u32) -> Result<(), NoMemory>
    ensures { OnOk result (out.new.items ≡ out.old.items ++ flat_map (λ x. codes " " ++ place_text x) (range_with_len 0 size)) }
{
    for x in 0..size {
        push_spaced_place(out, u64::from(x))?;
    }
    Ok(())
}

/// The numbers of the elements at an object.
#[tactic(auto, unfolding(crate::specs::Tables::numbers_line))]
fn push_numbers_line(out: &mut Vec<u8>, doc: &Doc, sizes: &[u32], c: u32) -> Result<(), NoMemory>
    ensures { OnOk result (out.new.items ≡ out.old.items ++ numbers_line (naming doc.now) sizes.now c) }
{
    push_object(out, doc, c)?;
    push_bytes(out, b":")?;
    push_numbers(out, size_at(sizes, c))?;
    push_bytes(out, b"\n")
}

/// Each place of a row with its number.
fn push_row(out: &mut Vec<u8>, row: &[u32]) -> Result<(), NoMemory>
    ensures { OnOk result (out.new.items ≡ out.old.items ++ listed arrow_text (with_places row.now)) }
{
    for x in 0..row.len() {
        push_lead(out, x)?;
        push_arrow_entry(out, x as u64, u64::from(row[x]))?;
    }
    Ok(())
}

/// Where the elements go along the declared arrow number i.
#[tactic(auto, unfolding(crate::specs::Tables::along_line))]
fn push_along_line(
    out: &mut Vec<u8>,
    doc: &Doc,
    along: &[Row<u32>],
    i: usize,
) -> Result<(), NoMemory>
    ensures { OnOk result (out.new.items ≡ out.old.items ++ along_line (naming doc.now) along.now i) }
{
    push_bytes(out, b"along ")?;
    push_arrow_name(out, doc, i)?;
    push_bytes(out, b":")?;
    push_row(out, row_at(along, i))?;
    push_bytes(out, b"\n")
}

/// The numbers of the elements at all objects.
fn push_numbers_lines(out: &mut Vec<u8>, doc: &Doc, sizes: &[u32]) -> Result<(), NoMemory>
    ensures { OnOk result (out.new.items ≡ out.old.items ++ flat_map (numbers_line (naming doc.now) sizes.now) (range_with_len 0 doc.now.cat.objects)) }
{
    for c in 0..doc.cat.objects {
        push_numbers_line(out, doc, sizes, c)?;
    }
    Ok(())
}

/// The restrictions along all declared arrows.
fn push_along_lines(out: &mut Vec<u8>, doc: &Doc, along: &[Row<u32>]) -> Result<(), NoMemory>
    ensures { OnOk result (out.new.items ≡ out.old.items ++ flat_map (along_line (naming doc.now) along.now) (range_with_len 0 (length doc.now.cat.ends))) }
{
    for i in 0..doc.cat.ends.len() {
        push_along_line(out, doc, along, i)?;
    }
    Ok(())
}

/// The elements and restrictions of a functor.
#[tactic(auto, unfolding(crate::specs::Tables::shape_lines))]
fn push_shape(out: &mut Vec<u8>, doc: &Doc, shape: &Shape) -> Result<(), NoMemory>
    ensures { OnOk result (out.new.items ≡ out.old.items ++ shape_lines (naming doc.now) shape.now) }
{
    push_numbers_lines(out, doc, shape.sizes.as_slice())?;
    push_along_lines(out, doc, shape.along.as_slice())
}

/// An element of a map's domain and its image.
#[tactic(auto, unfolding(crate::specs::Tables::pair_entry))]
fn push_pair_entry(
    out: &mut Vec<u8>,
    doc: &Doc,
    ends: &MapTy,
    c: u32,
    pair: &(Val, Val),
) -> Result<(), NoMemory>
    ensures { OnOk result (out.new.items ≡ out.old.items ++ pair_entry doc.now ends.now c pair.now) }
{
    push_listed(out, doc, &ends.dom, c, &pair.0)?;
    push_bytes(out, b" -> ")?;
    push_listed(out, doc, &ends.cod, c, &pair.1)
}

/// The entries of a map at an object.
fn push_pairs(
    out: &mut Vec<u8>,
    doc: &Doc,
    ends: &MapTy,
    c: u32,
    pairs: &[(Val, Val)],
) -> Result<(), NoMemory>
    ensures { OnOk result (out.new.items ≡ out.old.items ++ listed (pair_entry doc.now ends.now c) pairs.now) }
{
    for (i, pair) in pairs.iter().enumerate() {
        push_lead(out, i)?;
        push_pair_entry(out, doc, ends, c, pair)?;
    }
    Ok(())
}

/// The line of a map at an object.
#[tactic(auto, unfolding(crate::specs::Tables::map_line))]
fn push_map_line(out: &mut Vec<u8>, doc: &Doc, map: &MapShape, c: u32) -> Result<(), NoMemory>
    ensures { OnOk result (out.new.items ≡ out.old.items ++ map_line doc.now map.now c) }
{
    push_object(out, doc, c)?;
    push_bytes(out, b":")?;
    push_pairs(out, doc, &map.ends, c, pairs_at(map.stages.as_slice(), c))?;
    push_bytes(out, b"\n")
}

/// The lines of a map at all objects.
fn push_map_stages(out: &mut Vec<u8>, doc: &Doc, map: &MapShape) -> Result<(), NoMemory>
    ensures { OnOk result (out.new.items ≡ out.old.items ++ flat_map (map_line doc.now map.now) (range_with_len 0 doc.now.cat.objects)) }
{
    for c in 0..doc.cat.objects {
        push_map_line(out, doc, map, c)?;
    }
    Ok(())
}

/// A map by its name.
#[tactic(auto, unfolding(crate::specs::Tables::map_lines))]
fn push_named_map(out: &mut Vec<u8>, doc: &Doc, number: u32, map: &MapShape) -> Result<(), NoMemory>
    ensures { OnOk result (out.new.items ≡ out.old.items ++ map_lines doc.now (map_name doc.now number, map.now)) }
{
    push_bytes(out, b"map ")?;
    push_map_name(out, doc, number)?;
    push_bytes(out, b"\n")?;
    push_map_stages(out, doc, map)
}

/// A map by its place in a list.
#[tactic(auto, unfolding(crate::specs::Tables::map_lines))]
fn push_placed_map(out: &mut Vec<u8>, doc: &Doc, place: u64, map: &MapShape) -> Result<(), NoMemory>
    ensures { OnOk result (out.new.items ≡ out.old.items ++ map_lines doc.now (place_text place, map.now)) }
{
    push_bytes(out, b"map ")?;
    push_place(out, place)?;
    push_bytes(out, b"\n")?;
    push_map_stages(out, doc, map)
}

/// The maps that a statement makes with a functor.
fn push_made_maps(
    out: &mut Vec<u8>,
    doc: &Doc,
    stmt: &Stmt,
    maps: &[MapShape],
) -> Result<(), NoMemory>
    ensures { OnOk result (out.new.items ≡ out.old.items ++ flat_map (map_lines doc.now) (zip (map (map_name doc.now) (made_maps stmt.now)) maps.now)) }
{
    for (i, map) in maps.iter().enumerate() {
        match made_map(stmt, i) {
            Some(number) => push_named_map(out, doc, number, map)?,
            None => return Ok(()),
        }
    }
    Ok(())
}

/// The number of a statement, its word, and the functor that it makes.
#[tactic(auto, unfolding(crate::specs::AnswerLines::heading, crate::specs::AnswerLines::made_heading))]
fn push_made_heading(out: &mut Vec<u8>, doc: &Doc, k: u64, stmt: &Stmt) -> Result<(), NoMemory>
    ensures { OnOk result (out.new.items ≡ out.old.items ++ made_heading doc.now k stmt.now) }
{
    push_number(out, k)?;
    push_bytes(out, b" ")?;
    push_word(out, stmt)?;
    push_bytes(out, b" ")?;
    push_made_name(out, doc, stmt)?;
    push_bytes(out, b"\n")
}

/// A functor that a statement makes, and its maps.
#[tactic(auto, unfolding(crate::specs::AnswerLines::built_lines))]
pub fn push_built(
    out: &mut Vec<u8>,
    doc: &Doc,
    k: u64,
    stmt: &Stmt,
    functor: &Shape,
    maps: &[MapShape],
) -> Result<(), NoMemory>
    ensures { OnOk result (out.new.items ≡ out.old.items ++ built_lines doc.now k stmt.now functor.now maps.now) }
{
    push_made_heading(out, doc, k, stmt)?;
    push_shape(out, doc, functor)?;
    push_made_maps(out, doc, stmt, maps)
}

/// All maps of a list, by their places.
fn push_placed_maps(out: &mut Vec<u8>, doc: &Doc, maps: &[MapShape]) -> Result<(), NoMemory>
    ensures { OnOk result (out.new.items ≡ out.old.items ++ flat_map (listed_map_lines doc.now maps.now) (range_with_len 0 (length maps.now))) }
{
    for i in 0..maps.len() {
        push_placed_map(out, doc, i as u64, &maps[i])?;
    }
    Ok(())
}

/// How many maps there are, and all of them.
#[tactic(auto, unfolding(crate::specs::AnswerLines::heading))]
pub fn push_hom(out: &mut Vec<u8>, doc: &Doc, k: u64, maps: &[MapShape]) -> Result<(), NoMemory>
    ensures { OnOk result (out.new.items ≡ out.old.items ++ (heading k (codes "hom " ++ decimal (length maps.now)) ++ flat_map (listed_map_lines doc.now maps.now) (range_with_len 0 (length maps.now)))) }
{
    push_number(out, k)?;
    push_bytes(out, b" hom ")?;
    push_number(out, maps.len() as u64)?;
    push_bytes(out, b"\n")?;
    push_placed_maps(out, doc, maps)
}
