ghost use Rattle.std.specs.Prelude.{◌≡◌, ◌<◌, ◌≤◌, ◌+◌, ◌^◌, ◌++◌, ℕ, true, [], length, get_or, IfOk, IfSome, OnOk};
ghost use Rattle.topos_model.specs.Laws.{IsFunctor};
ghost use Rattle.topos_model.specs.presheaves.PresheafFaults.{IsPresheafListing};
ghost use Rattle.topos_model.specs.presheaves.MapFaults.{IsMapListing};
ghost use Rattle.topos_model.specs.presheaves.Maps.{IsNatural};
ghost use Rattle.topos_model.specs.presheaves.NaturalMaps.{maps};
ghost use Rattle.natural_maps.specs.Tables.{table_entries, table_along, row_images, IsRowWithin, AreRestrictions};

use crate::{Listing, MAX_ROOM, NatMap, list_maps};
use fin_category::{Cat, is_listing};
use presheaf_core::Functor;
use std::alloc::{AllocError, Global};
use std::test::Fail;
use topos_model::{NoMemory, RawAlong, RawCat, RawEntry, RawFunctor, RawMap, Row};

// What a listed category answers, in short: objects and arrows, or the fault.
fn category_answer(
    alloc: Global,
    objects: u32,
    arrows: &[(u32, u32)],
    composites: &[(u32, u32, u32)],
) -> Result<String, AllocError> {
    match raw_category(alloc, objects, arrows, composites) {
        Ok(raw) => {
            if !is_listing(&raw) {
                return format!(in alloc; "no listing");
            }
            match Cat::check(alloc, &raw) {
                Ok(cat) => format!(in alloc; "{} objects, {} arrows", cat.objects(), cat.arrows()),
                Err(fault) => format!(in alloc; "{fault:?}"),
            }
        }
        Err(_) => format!(in alloc; "no memory"),
    }
}

fn raw_category(
    alloc: Global,
    objects: u32,
    arrows: &[(u32, u32)],
    composites: &[(u32, u32, u32)],
) -> Result<RawCat, NoMemory> {
    let mut ends = Row::new(alloc);
    for arrow in arrows {
        ends.push(*arrow)?;
    }
    let mut listed = Row::new(alloc);
    for composite in composites {
        listed.push(*composite)?;
    }
    Ok(RawCat {
        objects,
        ends,
        listed,
    })
}

// The category that is listed, or none where there is no such category.
fn category(
    alloc: Global,
    objects: u32,
    arrows: &[(u32, u32)],
    composites: &[(u32, u32, u32)],
) -> Result<Option<Cat>, NoMemory> {
    let raw = raw_category(alloc, objects, arrows, composites)?;
    if !is_listing(&raw) {
        return Ok(None);
    }
    Ok(Cat::check(alloc, &raw).ok())
}

/// An arrow that associates not; a composite that is missing, one that has other ends, and one that is listed twice.
#[test]
fn faults_of_categories(rt: HostRuntime) -> Result<(), Fail> {
    let alloc = rt.alloc();
    let answer = category_answer(
        alloc,
        1,
        &[(0, 0), (0, 0)],
        &[(1, 1, 2), (1, 2, 1), (2, 1, 2), (2, 2, 2)],
    )?;
    assert_eq!(rt; answer.as_str(), "NotAssociative { h: 1, g: 1, f: 1 }");
    let answer = category_answer(alloc, 3, &[(0, 1), (1, 2), (0, 2), (0, 2)], &[])?;
    assert_eq!(rt; answer.as_str(), "CompositeMissing { g: 4, f: 3 }");
    let answer = category_answer(alloc, 3, &[(0, 1), (1, 2), (0, 2)], &[])?;
    assert_eq!(rt; answer.as_str(), "3 objects, 6 arrows");
    let answer = category_answer(alloc, 2, &[(0, 1)], &[(2, 2, 2)])?;
    assert_eq!(rt; answer.as_str(), "CompositeEnds { g: 2, f: 2, h: 2 }");
    let answer = category_answer(alloc, 1, &[(0, 0)], &[(1, 1, 1), (1, 1, 1)])?;
    assert_eq!(rt; answer.as_str(), "CompositeTwice { g: 1, f: 1 }");
    Ok(())
}

// So many objects, and so many arrows from the first one to the second one.
fn parallel_answer(alloc: Global, objects: u32, arrows: u32) -> Result<String, AllocError> {
    let mut ends = Vec::new(alloc);
    for _ in 0..arrows {
        match ends.push((0, 1)) {
            Ok(_) => {}
            Err(_) => return format!(in alloc; "no memory"),
        }
    }
    category_answer(alloc, objects, &ends, &[])
}

/// 128 objects, and with them 384 declared arrows, are as many as there may be.
#[test]
fn largest_category(rt: HostRuntime) -> Result<(), Fail> {
    let alloc = rt.alloc();
    let whole = parallel_answer(alloc, 128, 384)?;
    assert_eq!(rt; whole.as_str(), "128 objects, 512 arrows");
    let more_arrows = parallel_answer(alloc, 128, 385)?;
    assert_eq!(rt; more_arrows.as_str(), "no listing");
    let more_objects = parallel_answer(alloc, 129, 0)?;
    assert_eq!(rt; more_objects.as_str(), "no listing");
    Ok(())
}

// The entries of a row: from each place to the number there.
fn entries(alloc: Global, row: &[u32]) -> Result<Row<(u32, u32)>, NoMemory>
    requires { length row.now ≤ 2 ^ 32 }
    ensures { IfOk result (λ entries. entries ≡ table_entries row.now) }
{
    let mut entries = Row::new(alloc);
    for x in 0..row.len() {
        entries.push((x as u32, row[x]))?;
    }
    Ok(entries)
}

// Whether a row has no more places than the first number, and numbers below the second.
fn is_row_within(row: &[u32], places: u32, bound: u32) -> bool
    ensures { result ≡ true → IsRowWithin row.now places bound }
{
    if row.len() > places as usize {
        return false;
    }
    for y in row {
        if *y >= bound {
            return false;
        }
    }
    true
}

// Whether rows for the first declared arrows have elements at the domain for elements at the codomain.
fn are_restrictions(cat: &Cat, sizes: &[u32], rows: &Row<Row<u32>>) -> bool
    requires { length sizes.now ≡ cat.now.objects }
    ensures { result ≡ true → AreRestrictions cat.now sizes.now rows.now }
{
    let objects = cat.objects();
    let arrows = cat.arrows();
    if arrows < objects || rows.len() > (arrows - objects) as usize {
        return false;
    }
    for i in 0..rows.len() {
        let f = objects + i as u32;
        let places = sizes[cat.cod(f) as usize];
        if !is_row_within(rows.get(i).as_slice(), places, sizes[cat.dom(f) as usize]) {
            return false;
        }
    }
    true
}

// The restrictions along the first declared arrows.
fn along(alloc: Global, objects: u32, rows: &Row<Row<u32>>) -> Result<Row<RawAlong>, NoMemory>
    requires few { objects + length rows.now < 2 ^ 32 }
    requires rows { (i : ℕ) → i < length rows.now → length (get_or rows.now i []) ≤ 2 ^ 32 }
    ensures { IfOk result (λ along. along ≡ table_along objects rows.now) }
{
    let mut along = Row::new(alloc);
    for i in 0..rows.len() {
        let entries = entries(alloc, rows.get(i).as_slice())?;
        along.push(RawAlong {
            arrow: objects + i as u32,
            entries,
        })?;
    }
    Ok(along)
}

// A listed presheaf: its sizes, and a row for each of the first declared arrows; or none where the numbers are out of range.
fn raw_presheaf(
    alloc: Global,
    cat: &Cat,
    sizes: &[u32],
    rows: &Row<Row<u32>>,
) -> Result<Option<RawFunctor>, NoMemory>
    ensures { IfOk result (λ listing. IfSome listing (λ raw. IsPresheafListing cat.now raw)) }
{
    cat.laws();
    if sizes.len() != cat.objects() as usize || !are_restrictions(cat, sizes, rows) {
        return Ok(None);
    }
    let along = along(alloc, cat.objects(), rows)?;
    let mut copy = Row::new(alloc);
    for size in sizes {
        copy.push(*size)?;
    }
    Ok(Some(RawFunctor { sizes: copy, along }))
}

// Puts last the images of the elements at c.
fn push_images(entries: &mut Row<RawEntry>, c: u32, row: &[u32]) -> Result<(), NoMemory>
    requires { length row.now ≤ 2 ^ 32 }
    ensures { OnOk result (entries.new ≡ entries.old ++ row_images c row.now) }
{
    for x in 0..row.len() {
        entries.push(RawEntry {
            at: c,
            from: x as u32,
            to: row[x],
        })?;
    }
    Ok(())
}

// The images of the first elements at the first objects, or none where there are too many.
fn raw_map(alloc: Global, cat: &Cat, rows: &Row<Row<u32>>) -> Result<Option<RawMap>, NoMemory>
    ensures { IfOk result (λ listing. IfSome listing (λ raw. IsMapListing cat.now raw)) }
{
    if rows.len() > cat.objects() as usize {
        return Ok(None);
    }
    let mut entries = Row::new(alloc);
    for c in 0..rows.len() {
        let row = rows.get(c).as_slice();
        if row.len() > 256 {
            return Ok(None);
        }
        push_images(&mut entries, c as u32, row)?;
    }
    Ok(Some(RawMap { entries }))
}

// The presheaf that is listed, or none where there is no such presheaf.
fn presheaf(
    alloc: Global,
    cat: &Cat,
    sizes: &[u32],
    rows: &Row<Row<u32>>,
) -> Result<Option<Functor>, NoMemory>
    ensures { IfOk result (λ made. IfSome made (λ functor. IsFunctor cat.now functor)) }
{
    match raw_presheaf(alloc, cat, sizes, rows)? {
        Some(raw) => Ok(Functor::check(alloc, cat, &raw).ok()),
        None => Ok(None),
    }
}

// Two rows.
fn rows(alloc: Global, first: &[u32], second: &[u32]) -> Result<Row<Row<u32>>, NoMemory> {
    let mut rows = Row::new(alloc);
    for numbers in [first, second] {
        let mut row = Row::new(alloc);
        for number in numbers {
            row.push(*number)?;
        }
        rows.push(row)?;
    }
    Ok(rows)
}

// One row.
fn sole_row(alloc: Global, numbers: &[u32]) -> Result<Row<Row<u32>>, NoMemory> {
    let mut row = Row::new(alloc);
    for number in numbers {
        row.push(*number)?;
    }
    let mut rows = Row::new(alloc);
    rows.push(row)?;
    Ok(rows)
}

// What a listed presheaf answers, in short: its cells, or the fault.
fn presheaf_answer(
    alloc: Global,
    cat: &Cat,
    sizes: &[u32],
    rows: &Row<Row<u32>>,
) -> Result<String, AllocError> {
    match raw_presheaf(alloc, cat, sizes, rows) {
        Ok(Some(raw)) => match Functor::check(alloc, cat, &raw) {
            Ok(_) => format!(in alloc; "presheaf"),
            Err(fault) => format!(in alloc; "{fault:?}"),
        },
        Ok(None) => format!(in alloc; "no listing"),
        Err(_) => format!(in alloc; "no memory"),
    }
}

/// An arrow r with r.r = r: restrictions that turn two elements round, that leave one out, and that are not listed.
#[test]
fn faults_of_presheaves(rt: HostRuntime) -> Result<(), Fail> {
    let alloc = rt.alloc();
    if let Some(cat) = category(alloc, 1, &[(0, 0)], &[(1, 1, 1)])? {
        let turned = sole_row(alloc, &[1, 0])?;
        let answer = presheaf_answer(alloc, &cat, &[2], &turned)?;
        assert_eq!(rt; answer.as_str(), "NotFunctorial { g: 1, f: 1, x: 0 }");
        let short = sole_row(alloc, &[1])?;
        let answer = presheaf_answer(alloc, &cat, &[2], &short)?;
        assert_eq!(rt; answer.as_str(), "NotTotal { f: 1, x: 1 }");
        let answer = presheaf_answer(alloc, &cat, &[2], &Row::new(alloc))?;
        assert_eq!(rt; answer.as_str(), "RestrictionMissing { f: 1 }");
        let constant = sole_row(alloc, &[1, 1])?;
        let answer = presheaf_answer(alloc, &cat, &[2], &constant)?;
        assert_eq!(rt; answer.as_str(), "presheaf");
    } else {
        assert!(rt; false);
    }
    Ok(())
}

// What a listed map answers, in short.
fn map_answer(
    alloc: Global,
    cat: &Cat,
    p: &Functor,
    q: &Functor,
    rows: &Row<Row<u32>>,
) -> Result<String, AllocError>
    requires domain { IsFunctor cat.now p.now }
    requires codomain { IsFunctor cat.now q.now }
{
    match raw_map(alloc, cat, rows) {
        Ok(Some(raw)) => match NatMap::check(alloc, cat, p, q, &raw) {
            Ok(_) => format!(in alloc; "map"),
            Err(fault) => format!(in alloc; "{fault:?}"),
        },
        Ok(None) => format!(in alloc; "no listing"),
        Err(_) => format!(in alloc; "no memory"),
    }
}

// The site of graphs: two objects V and E, and arrows s and t from V to E.
fn graph_site(alloc: Global) -> Result<Option<Cat>, NoMemory> {
    category(alloc, 2, &[(0, 1), (0, 1)], &[])
}

// The graph of so many vertices whose edges have these sources and targets.
fn graph(
    alloc: Global,
    cat: &Cat,
    vertices: u32,
    sources: &[u32],
    targets: &[u32],
) -> Result<Option<Functor>, NoMemory>
    ensures { IfOk result (λ made. IfSome made (λ functor. IsFunctor cat.now functor)) }
{
    if sources.len() > 256 {
        return Ok(None);
    }
    let ends = rows(alloc, sources, targets)?;
    presheaf(alloc, cat, &[vertices, sources.len() as u32], &ends)
}

// How many maps there are, and none where there are more than the room.
fn count(
    alloc: Global,
    cat: &Cat,
    p: &Functor,
    q: &Functor,
    room: u64,
) -> Result<Option<usize>, NoMemory>
    requires domain { IsFunctor cat.now p.now }
    requires codomain { IsFunctor cat.now q.now }
{
    if room > MAX_ROOM {
        return Ok(None);
    }
    match list_maps(alloc, cat, p, q, room)? {
        Listing::All(found) => Ok(Some(found.len())),
        Listing::Over => Ok(None),
    }
}

// The numbers of natural maps, all in one line.
fn numbers_of(
    alloc: Global,
    cat: &Cat,
    p: &Functor,
    q: &Functor,
    found: &Row<NatMap>,
) -> Result<Row<u32>, NoMemory>
    requires domain { IsFunctor cat.now p.now }
    requires codomain { IsFunctor cat.now q.now }
    requires maps { found.now ≡ maps cat.now p.now q.now }
{
    cat.laws();
    let mut numbers = Row::new(alloc);
    for i in 0..found.len() {
        let map = found.get(i);
        for c in 0..cat.objects() {
            for y in map.row(c) {
                numbers.push(*y)?;
            }
        }
    }
    Ok(numbers)
}

// The graph of one edge, and the graph with two edges from the first vertex to the second and one back.
fn edge(alloc: Global, cat: &Cat) -> Result<Option<Functor>, NoMemory>
    ensures { IfOk result (λ made. IfSome made (λ functor. IsFunctor cat.now functor)) }
{
    graph(alloc, cat, 2, &[0], &[1])
}

fn three_edges(alloc: Global, cat: &Cat) -> Result<Option<Functor>, NoMemory>
    ensures { IfOk result (λ made. IfSome made (λ functor. IsFunctor cat.now functor)) }
{
    graph(alloc, cat, 2, &[0, 0, 1], &[1, 1, 0])
}

// What a listed map from the one to the other answers.
fn edge_map_answer(alloc: Global, images: &Row<Row<u32>>) -> Result<String, AllocError> {
    if let Ok(Some(cat)) = graph_site(alloc) {
        if let Ok(Some(p)) = edge(alloc, &cat) {
            if let Ok(Some(q)) = three_edges(alloc, &cat) {
                return map_answer(alloc, &cat, &p, &q, images);
            }
        }
    }
    format!(in alloc; "no graphs")
}

// The numbers of all maps, or none where there are more than the room.
fn numbers_within(
    alloc: Global,
    cat: &Cat,
    p: &Functor,
    q: &Functor,
    room: u64,
) -> Result<Option<Row<u32>>, NoMemory>
    requires domain { IsFunctor cat.now p.now }
    requires codomain { IsFunctor cat.now q.now }
{
    if room > MAX_ROOM {
        return Ok(None);
    }
    match list_maps(alloc, cat, p, q, room)? {
        Listing::All(found) => Ok(Some(numbers_of(alloc, cat, p, q, &found)?)),
        Listing::Over => Ok(None),
    }
}

// The numbers of all maps from the one to the other, or none where there are more than the room.
fn edge_maps(alloc: Global, room: u64) -> Result<Option<Row<u32>>, NoMemory> {
    if let Some(cat) = graph_site(alloc)? {
        if let Some(p) = edge(alloc, &cat)? {
            if let Some(q) = three_edges(alloc, &cat)? {
                return numbers_within(alloc, &cat, &p, &q, room);
            }
        }
    }
    Ok(None)
}

/// Listed maps that are one, that do not commute, that name an element that is not there, and that leave one out.
#[test]
fn faults_of_maps(rt: HostRuntime) -> Result<(), Fail> {
    let alloc = rt.alloc();
    let natural = edge_map_answer(alloc, &rows(alloc, &[0, 1], &[0])?)?;
    assert_eq!(rt; natural.as_str(), "map");
    let turned = edge_map_answer(alloc, &rows(alloc, &[0, 0], &[0])?)?;
    assert_eq!(rt; turned.as_str(), "NotNatural { f: 3, x: 0 }");
    let unknown = edge_map_answer(alloc, &rows(alloc, &[0, 2], &[0])?)?;
    assert_eq!(rt; unknown.as_str(), "NoElement { at: 0, k: 2 }");
    let short = edge_map_answer(alloc, &rows(alloc, &[0], &[0])?)?;
    assert_eq!(rt; short.as_str(), "MapNotTotal { at: 0, x: 1 }");
    Ok(())
}

// What a listed map from the set of so many elements to that of so many, at a single object, answers.
fn set_map_answer(
    alloc: Global,
    from: usize,
    to: usize,
    images: &Row<Row<u32>>,
) -> Result<String, AllocError> {
    if let Ok(Some(cat)) = category(alloc, 1, &[], &[]) {
        if let Ok(Some(p)) = set(alloc, &cat, from) {
            if let Ok(Some(q)) = set(alloc, &cat, to) {
                return map_answer(alloc, &cat, &p, &q, images);
            }
        }
    }
    format!(in alloc; "no sets")
}

/// Listed maps between sets at a single object: each is one that leaves no element out and names none that is not there.
#[test]
fn faults_of_maps_of_sets(rt: HostRuntime) -> Result<(), Fail> {
    let alloc = rt.alloc();
    let total = set_map_answer(alloc, 2, 3, &sole_row(alloc, &[2, 0])?)?;
    assert_eq!(rt; total.as_str(), "map");
    let unknown = set_map_answer(alloc, 2, 3, &sole_row(alloc, &[0, 3])?)?;
    assert_eq!(rt; unknown.as_str(), "NoElement { at: 0, k: 3 }");
    let source = set_map_answer(alloc, 1, 3, &sole_row(alloc, &[0, 1])?)?;
    assert_eq!(rt; source.as_str(), "NoElement { at: 0, k: 1 }");
    let short = set_map_answer(alloc, 2, 3, &sole_row(alloc, &[1])?)?;
    assert_eq!(rt; short.as_str(), "MapNotTotal { at: 0, x: 1 }");
    Ok(())
}

/// The graph of one edge has three maps to the graph with two edges one way and one back.
#[test]
fn maps_of_an_edge(rt: HostRuntime) -> Result<(), Fail> {
    let alloc = rt.alloc();
    if let Some(numbers) = edge_maps(alloc, 3)? {
        assert!(rt; numbers.as_slice() == [0, 1, 0, 0, 1, 1, 1, 0, 2].as_slice());
    } else {
        assert!(rt; false);
    }
    assert!(rt; edge_maps(alloc, 2)?.is_none());
    Ok(())
}

// The listed map between sets, or none where there is no such map.
fn listed_map(
    alloc: Global,
    cat: &Cat,
    p: &Functor,
    q: &Functor,
    images: &[u32],
) -> Result<Option<NatMap>, NoMemory>
    requires domain { IsFunctor cat.now p.now }
    requires codomain { IsFunctor cat.now q.now }
    ensures { IfOk result (λ made. IfSome made (λ map. IsNatural cat.now p.now q.now map)) }
{
    match raw_map(alloc, cat, &sole_row(alloc, images)?)? {
        Some(raw) => Ok(NatMap::check(alloc, cat, p, q, &raw).ok()),
        None => Ok(None),
    }
}

// The set of so many elements, at a single object.
fn set(alloc: Global, cat: &Cat, size: usize) -> Result<Option<Functor>, NoMemory>
    ensures { IfOk result (λ made. IfSome made (λ functor. IsFunctor cat.now functor)) }
{
    if size > 256 {
        return Ok(None);
    }
    presheaf(alloc, cat, &[size as u32], &Row::new(alloc))
}

// Where the first map and then the second one takes the elements.
fn images_of_both(
    alloc: Global,
    cat: &Cat,
    ends: (&Functor, &Functor, &Functor),
    first: &NatMap,
    second: &NatMap,
) -> Result<Row<u32>, NoMemory>
    requires first { IsNatural cat.now ends.0.now ends.1.now first.now }
    requires second { IsNatural cat.now ends.1.now ends.2.now second.now }
{
    let both = second.after(alloc, first)?;
    let mut images = Row::new(alloc);
    for row in both.rows() {
        for y in row.as_slice() {
            images.push(*y)?;
        }
    }
    Ok(images)
}

// Where the first listed map, to two elements, and then the second one, of these to two, takes the elements.
fn listed_images_of_both(
    alloc: Global,
    cat: &Cat,
    p: &Functor,
    q: &Functor,
    first: &[u32],
    second: &[u32],
) -> Result<Option<Row<u32>>, NoMemory>
    requires domain { IsFunctor cat.now p.now }
    requires codomain { IsFunctor cat.now q.now }
{
    if let Some(first) = listed_map(alloc, cat, p, q, first)? {
        if let Some(second) = listed_map(alloc, cat, q, q, second)? {
            return Ok(Some(images_of_both(alloc, cat, (p, q, q), &first, &second)?));
        }
    }
    Ok(None)
}

fn composite_of(
    alloc: Global,
    first: &[u32],
    second: &[u32],
) -> Result<Option<Row<u32>>, NoMemory> {
    if let Some(cat) = category(alloc, 1, &[], &[])? {
        if let Some(p) = set(alloc, &cat, first.len())? {
            if let Some(q) = set(alloc, &cat, 2)? {
                return listed_images_of_both(alloc, &cat, &p, &q, first, second);
            }
        }
    }
    Ok(None)
}

/// A map of one element to the first of two, and then both of these to one; and three elements that are sent to two, which are turned round.
#[test]
fn map_after_a_map(rt: HostRuntime) -> Result<(), Fail> {
    let alloc = rt.alloc();
    if let Some(images) = composite_of(alloc, &[0], &[0, 0])? {
        assert!(rt; images.as_slice() == [0].as_slice());
    } else {
        assert!(rt; false);
    }
    if let Some(images) = composite_of(alloc, &[0, 1, 1], &[1, 0])? {
        assert!(rt; images.as_slice() == [1, 0, 0].as_slice());
    } else {
        assert!(rt; false);
    }
    Ok(())
}

// How many maps a graph has to the triangle with edges both ways, or none where there are more than the room.
fn colourings(
    alloc: Global,
    vertices: u32,
    sources: &[u32],
    targets: &[u32],
    room: u64,
) -> Result<Option<usize>, NoMemory> {
    if let Some(cat) = graph_site(alloc)? {
        if let Some(p) = graph(alloc, &cat, vertices, sources, targets)? {
            if let Some(q) = graph(alloc, &cat, 3, &[0, 0, 1, 1, 2, 2], &[1, 2, 0, 2, 0, 1])? {
                return count(alloc, &cat, &p, &q, room);
            }
        }
    }
    Ok(None)
}

/// The complete graph on four vertices and Grötzsch's graph, which has no triangle, need four colours, though the 36 vertices without an edge beside the first one have 3^36 colourings.
/// Those of a path of three vertices are over the room at the first one. Nine vertices without an edge have 3^9 colourings.
#[test]
fn colourings_of_graphs(rt: HostRuntime) -> Result<(), Fail> {
    let alloc = rt.alloc();
    let complete = colourings(alloc, 40, &[0, 0, 0, 1, 1, 2], &[1, 2, 3, 2, 3, 3], 19_683)?;
    assert_eq!(rt; complete, Some(0));
    assert_eq!(rt; colourings(alloc, 40, &[0, 1], &[1, 2], 19_683)?, None);
    let sources = [0, 1, 2, 3, 4, 0, 1, 2, 3, 4, 0, 1, 2, 3, 4, 5, 6, 7, 8, 9];
    let targets = [
        1, 2, 3, 4, 0, 6, 7, 8, 9, 5, 9, 5, 6, 7, 8, 10, 10, 10, 10, 10,
    ];
    let grotzsch = colourings(alloc, 11, &sources, &targets, 0)?;
    assert_eq!(rt; grotzsch, Some(0));
    assert_eq!(rt; colourings(alloc, 9, &[], &[], 19_683)?, Some(19_683));
    assert_eq!(rt; colourings(alloc, 9, &[], &[], 19_682)?, None);
    Ok(())
}
