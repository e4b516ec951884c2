ghost use Rattle.std.specs.Prelude.{◌≡◌, ◌≤◌, ◌<◌, ◌+◌, ◌^◌, ℕ, true, [], ◌∷◌, None, List, length, get_or, IfOk, IfSome};
ghost use Rattle.topos_model.specs.Laws.{IsFunctor};
ghost use Rattle.topos_model.specs.types.Types.{Presheaf};
ghost use Rattle.topos_model.specs.presheaves.PresheafFaults.{IsPresheafListing};
ghost use Rattle.natural_maps.specs.Tables.{table_entries, table_along, IsRowWithin, AreRestrictions};
ghost use Rattle.topologies.specs.Topologies.{IsTopologyOn};
ghost use Rattle.functor_store.specs.Store.{functor_at, size_at};
ghost use Rattle.functor_store.specs.Faithful.{IsFaithful};
ghost use Rattle.type_rows.specs.TypeRows.{HoldsNamed};
ghost use Rattle.topos_model.specs.statements.Form.{max_arrows};
ghost use Rattle.omega_object.specs.Tables.{IsOmegaOn, IsInRange, rows_at};
ghost use Rattle.exponentials.specs.Needed.{HoldsOmega};

use crate::need;
use fin_category::{Cat, is_listing};
use functor_store::{FunctorId, FunctorStore, StoreFault};
use named_functors::seal_functor;
use omega_object::{Omega, empty_store};
use presheaf_core::Functor;
use std::alloc::Global;
use std::test::Fail;
use topologies::{Site, Topology, are_families};
use topos_model::{Boxed, Family, NoMemory, RawAlong, RawCat, RawFunctor, Row, Ty};

fn topology(alloc: Global, cat: &Cat, families: &[Family], dense: bool) -> Result<Topology, Fail>
    ensures { IfOk result (λ t. IsTopologyOn cat.now t) }
{
    if dense {
        return Ok(Topology::dense(alloc, cat)?);
    }
    if !are_families(cat, families) {
        return Err(Fail::new("no families"));
    }
    match Topology::listed(alloc, cat, families) {
        Ok(top) => Ok(top),
        Err(_) => Err(Fail::new("no topology")),
    }
}

// The site of listed covers, or of the dense topology.
fn site(alloc: Global, raw: &RawCat, families: &[Family], dense: bool) -> Result<Site, Fail> {
    if !is_listing(raw) {
        return Err(Fail::new("no listing"));
    }
    let cat = Cat::check(alloc, raw)?;
    let top = topology(alloc, &cat, families, dense)?;
    Ok(Site::new(cat, top))
}

// One object and its identity.
fn point(alloc: Global) -> Result<Site, Fail> {
    let raw = RawCat {
        objects: 1,
        ends: Row::new(alloc),
        listed: Row::new(alloc),
    };
    site(alloc, &raw, &[], false)
}

// Two objects V and E, and two arrows s and t from V to E.
fn graphs(alloc: Global, dense: bool) -> Result<Site, Fail> {
    let mut ends = Row::new(alloc);
    ends.push((0, 1))?;
    ends.push((0, 1))?;
    let raw = RawCat {
        objects: 2,
        ends,
        listed: Row::new(alloc),
    };
    site(alloc, &raw, &[], dense)
}

// The sets of discrete points, as many as there are, each by the bits of its points. The points of a set cover it.
fn discrete_space(alloc: Global, sets: u32) -> Result<Site, Fail> {
    let mut ends = Row::new(alloc);
    let mut families = Vec::new(alloc);
    let mut arrow = sets;
    for larger in 0..sets {
        let mut points = Row::new(alloc);
        for smaller in 0..larger {
            if smaller & larger == smaller {
                ends.push((smaller, larger))?;
                if smaller.count_ones() == 1 {
                    points.push(arrow)?;
                }
                arrow = arrow.wrapping_add(1);
            }
        }
        if larger.count_ones() != 1 {
            families.push(Family {
                at: larger,
                arrows: points,
            })?;
        }
    }
    let raw = RawCat {
        objects: sets,
        ends,
        listed: Row::new(alloc),
    };
    site(alloc, &raw, families.as_slice(), false)
}

#[derive(Clone, Copy)]
enum Place {
    Point,
    Graphs,
    DenseGraphs,
    FourPoints,
}

fn site_of(alloc: Global, place: Place) -> Result<Site, Fail> {
    match place {
        Place::Point => point(alloc),
        Place::Graphs => graphs(alloc, false),
        Place::DenseGraphs => graphs(alloc, true),
        Place::FourPoints => discrete_space(alloc, 16),
    }
}

// The entries of a row: from each place to the number there.
fn entries(alloc: Global, row: &[u32]) -> Result<Row<(u32, u32)>, NoMemory>
    requires { length row.now ≤ 2 ^ 32 }
    ensures { IfOk result (λ entries. entries ≡ table_entries row.now) }
{
    let mut entries = Row::new(alloc);
    for x in 0..row.len() {
        entries.push((x as u32, row[x]))?;
    }
    Ok(entries)
}

// Whether a row has no more places than the first number, and numbers below the second.
fn is_row_within(row: &[u32], places: u32, bound: u32) -> bool
    ensures { result ≡ true → IsRowWithin row.now places bound }
{
    if row.len() > places as usize {
        return false;
    }
    for y in row {
        if *y >= bound {
            return false;
        }
    }
    true
}

// Whether rows for the first declared arrows have elements at the domain for elements at the codomain.
fn are_restrictions(cat: &Cat, sizes: &[u32], rows: &Row<Row<u32>>) -> bool
    requires { length sizes.now ≡ cat.now.objects }
    ensures { result ≡ true → AreRestrictions cat.now sizes.now rows.now }
{
    let objects = cat.objects();
    let arrows = cat.arrows();
    if arrows < objects || rows.len() > (arrows - objects) as usize {
        return false;
    }
    for i in 0..rows.len() {
        let f = objects + i as u32;
        let places = sizes[cat.cod(f) as usize];
        if !is_row_within(rows.get(i).as_slice(), places, sizes[cat.dom(f) as usize]) {
            return false;
        }
    }
    true
}

// The restrictions along the first declared arrows.
fn along(alloc: Global, objects: u32, rows: &Row<Row<u32>>) -> Result<Row<RawAlong>, NoMemory>
    requires few { objects + length rows.now < 2 ^ 32 }
    requires rows { (i : ℕ) → i < length rows.now → length (get_or rows.now i []) ≤ 2 ^ 32 }
    ensures { IfOk result (λ along. along ≡ table_along objects rows.now) }
{
    let mut along = Row::new(alloc);
    for i in 0..rows.len() {
        let entries = entries(alloc, rows.get(i).as_slice())?;
        along.push(RawAlong {
            arrow: objects + i as u32,
            entries,
        })?;
    }
    Ok(along)
}

// A listed presheaf: its sizes, and a row for each of the first declared arrows; or none where the numbers are out of range.
fn raw_presheaf(
    alloc: Global,
    cat: &Cat,
    sizes: &[u32],
    rows: &Row<Row<u32>>,
) -> Result<Option<RawFunctor>, NoMemory>
    ensures { IfOk result (λ listing. IfSome listing (λ raw. IsPresheafListing cat.now raw)) }
{
    cat.laws();
    if sizes.len() != cat.objects() as usize || !are_restrictions(cat, sizes, rows) {
        return Ok(None);
    }
    let along = along(alloc, cat.objects(), rows)?;
    let mut copy = Row::new(alloc);
    for size in sizes {
        copy.push(*size)?;
    }
    Ok(Some(RawFunctor { sizes: copy, along }))
}

// The presheaf that is listed.
fn presheaf(alloc: Global, cat: &Cat, sizes: &[u32], rows: &Row<Row<u32>>) -> Result<Functor, Fail>
    ensures { IfOk result (λ functor. IsFunctor cat.now functor) }
{
    match raw_presheaf(alloc, cat, sizes, rows)? {
        Some(raw) => Ok(Functor::check(alloc, cat, &raw)?),
        None => Err(Fail::new("no listing")),
    }
}

// One edge from the first of two vertices to the second.
fn edge(alloc: Global, cat: &Cat) -> Result<Functor, Fail>
    ensures { IfOk result (λ functor. IsFunctor cat.now functor) }
{
    let mut source = Row::new(alloc);
    source.push(0)?;
    let mut target = Row::new(alloc);
    target.push(1)?;
    let mut rows = Row::new(alloc);
    rows.push(source)?;
    rows.push(target)?;
    presheaf(alloc, cat, &[2, 1], &rows)
}

// Seven vertices, and one edge from each to each.
fn all_edges(alloc: Global, cat: &Cat) -> Result<Functor, Fail>
    ensures { IfOk result (λ functor. IsFunctor cat.now functor) }
{
    let mut sources = Row::new(alloc);
    let mut targets = Row::new(alloc);
    for edge in 0..49u32 {
        sources.push(edge / 7)?;
        targets.push(edge % 7)?;
    }
    let mut rows = Row::new(alloc);
    rows.push(sources)?;
    rows.push(targets)?;
    presheaf(alloc, cat, &[7, 49], &rows)
}

// Five elements over a point, an edge or all edges over the graphs, and nothing over a space.
fn presheaf_of(alloc: Global, place: Place, cat: &Cat) -> Result<Functor, Fail>
    ensures { IfOk result (λ functor. IsFunctor cat.now functor) }
{
    match place {
        Place::Point => presheaf(alloc, cat, &[5], &Row::new(alloc)),
        Place::Graphs => edge(alloc, cat),
        Place::DenseGraphs => all_edges(alloc, cat),
        Place::FourPoints => presheaf(alloc, cat, &[0; 16], &Row::new(alloc)),
    }
}

fn two(alloc: Global, left: Ty, right: Ty) -> Result<Ty, NoMemory> {
    Ok(Ty::Two(Boxed::new(alloc, left)?, Boxed::new(alloc, right)?))
}

fn pow(alloc: Global, of: Ty) -> Result<Ty, NoMemory> {
    Ok(Ty::Pow(Boxed::new(alloc, of)?))
}

fn fun(alloc: Global, from: Ty, to: Ty) -> Result<Ty, NoMemory> {
    Ok(Ty::Fun(Boxed::new(alloc, from)?, Boxed::new(alloc, to)?))
}

#[derive(Clone, Copy)]
enum Kind {
    TruthValues,
    PairsOfTruthValues,
    SubsetsOfTruthValues,
    FunctionsOfTruthValues,
    SubsetsOfOne,
    PairsOfSubsetsOfOne,
    FunctionsOfOne,
    FunctionsOfSubsetsOfOne,
    Subsets,
    SubsetsOfSubsets,
    Functions,
    FunctionsAndElements,
}

// A type of truth values, of the one element, or of the elements of the presheaf.
fn type_of(alloc: Global, kind: Kind) -> Result<Ty, NoMemory> {
    match kind {
        Kind::TruthValues => Ok(Ty::Omega),
        Kind::PairsOfTruthValues => two(alloc, Ty::Omega, Ty::Omega),
        Kind::SubsetsOfTruthValues => two(alloc, pow(alloc, Ty::Omega)?, Ty::Omega),
        Kind::FunctionsOfTruthValues => two(alloc, fun(alloc, Ty::Omega, Ty::Omega)?, Ty::Omega),
        Kind::SubsetsOfOne => pow(alloc, Ty::One),
        Kind::PairsOfSubsetsOfOne => two(alloc, pow(alloc, Ty::One)?, pow(alloc, Ty::One)?),
        Kind::FunctionsOfOne => fun(alloc, Ty::One, Ty::Omega),
        Kind::FunctionsOfSubsetsOfOne => fun(alloc, pow(alloc, Ty::One)?, pow(alloc, Ty::One)?),
        Kind::Subsets => pow(alloc, Ty::Base(0)),
        Kind::SubsetsOfSubsets => pow(alloc, pow(alloc, Ty::Base(0))?),
        Kind::Functions => fun(alloc, Ty::Base(0), Ty::Base(0)),
        Kind::FunctionsAndElements => two(
            alloc,
            fun(alloc, Ty::Base(0), Ty::Base(0))?,
            Ty::Base(0),
        ),
    }
}

// Whether the functors that a type names are sealed, and `Omega` where it occurs.
fn is_ready(store: &FunctorStore, ty: &Ty) -> bool
    ensures { result ≡ true → HoldsNamed store.now ty.now × HoldsOmega store.now ty.now }
{
    match ty {
        Ty::Base(_) => store.find(ty).is_some(),
        Ty::One => true,
        Ty::Omega => store.find(ty).is_some(),
        Ty::Two(left, right) => is_ready(store, left.get()) && is_ready(store, right.get()),
        Ty::Pow(of) => is_ready(store, of.get()),
        Ty::Fun(from, to) => is_ready(store, from.get()) && is_ready(store, to.get()),
    }
}

// A store of so many cells with the truth values and one presheaf.
fn store_over(
    alloc: Global,
    site: &Site,
    functor: &Functor,
    budget: u64,
) -> Result<FunctorStore, Fail>
    requires budget { budget ≤ 64_000_000 }
    requires functor { IsFunctor site.now.category functor.now }
    ensures idle { IfOk result (λ store. store.building ≡ None) }
    ensures faithful { IfOk result (λ store. IsFaithful site.now (functor.now ∷ []) store) }
{
    let mut store = empty_store(alloc, site, budget)?;
    Omega::need(alloc, &mut store, site)?;
    seal_functor(alloc, &mut store, site, 0, functor)?;
    Ok(store)
}

// Puts the row of an element at c behind the text, and the number of its restriction along each arrow that is no identity.
fn push_element(
    alloc: Global,
    text: String,
    cat: &Cat,
    store: &FunctorStore,
    id: FunctorId,
    c: u32,
    k: u32,
) -> Result<String, Fail>
    requires objects { store.now.objects ≡ cat.now.objects }
    requires ends { store.now.ends ≡ cat.now.ends }
    requires sealed { id < length store.now.sealed }
    requires object { c < store.now.objects }
    requires element { k < size_at (functor_at store.now.sealed id) c }
{
    let mut text = text;
    text.push(' ')?;
    for entry in store.element(id, c, k) {
        text = format!(in alloc; "{text}{entry}")?;
    }
    for f in cat.arrows_into(c) {
        if *f >= cat.objects() {
            text = format!(in alloc; "{text}.{}", store.restrict(id, *f, k))?;
        }
    }
    Ok(text)
}

// The elements of a functor, object by object.
fn listed(alloc: Global, site: &Site, store: &FunctorStore, id: FunctorId) -> Result<String, Fail>
    requires faithful { (functors : List Presheaf) × IsFaithful site.now functors store.now }
    requires sealed { id < length store.now.sealed }
{
    let cat = site.cat();
    let mut text = String::new(alloc);
    for c in 0..cat.objects() {
        text.push('/')?;
        for k in 0..store.count(id, c) {
            text = push_element(alloc, text, cat, store, id, c, k)?;
        }
    }
    Ok(text)
}

// The elements of a type, object by object.
fn elements(alloc: Global, place: Place, kind: Kind) -> Result<String, Fail> {
    let site = site_of(alloc, place)?;
    let functor = presheaf_of(alloc, place, site.cat())?;
    let ty = type_of(alloc, kind)?;
    elements_on(alloc, &site, &functor, &ty)
}

fn elements_on(alloc: Global, site: &Site, functor: &Functor, ty: &Ty) -> Result<String, Fail>
    requires { IsFunctor site.now.category functor.now }
{
    let mut store = store_over(alloc, site, functor, 4_000_000)?;
    if !is_ready(&store, ty) {
        return Err(Fail::new("not ready"));
    }
    let id = need(alloc, &mut store, site, ty)?;
    listed(alloc, site, &store, id)
}

// The cells of the truth values, the presheaf and a type with its parts in a store for so many, or 0 where they are more.
fn cells(alloc: Global, place: Place, kind: Kind, budget: u64) -> Result<u64, Fail> {
    let site = site_of(alloc, place)?;
    let functor = presheaf_of(alloc, place, site.cat())?;
    let ty = type_of(alloc, kind)?;
    cells_on(alloc, &site, &functor, &ty, budget)
}

fn cells_on(
    alloc: Global,
    site: &Site,
    functor: &Functor,
    ty: &Ty,
    budget: u64,
) -> Result<u64, Fail>
    requires { IsFunctor site.now.category functor.now }
{
    if budget > 64_000_000 {
        return Err(Fail::new("a large budget"));
    }
    let mut store = store_over(alloc, site, functor, budget)?;
    if !is_ready(&store, ty) {
        return Err(Fail::new("not ready"));
    }
    match need(alloc, &mut store, site, ty) {
        Ok(_) => Ok(store.cells()),
        Err(StoreFault::Over) => Ok(0),
        Err(StoreFault::NoMemory) => Err(Fail::new("no memory")),
    }
}

/// Over the graphs a truth value at E is one of {}, {t}, {s}, {s, t} and all, and so are a subset of the one element and a function from it; where covers are dense, {s, t} is
/// not closed.
#[test]
fn subsets_of_one_element(rt: HostRuntime) -> Result<(), Fail> {
    let alloc = rt.alloc();
    let values = elements(alloc, Place::Graphs, Kind::TruthValues)?;
    assert_eq!(rt; values.as_str(), "/  / .0.0 .0.1 .1.0 .1.1 .1.1");
    let subsets = elements(alloc, Place::Graphs, Kind::SubsetsOfOne)?;
    assert_eq!(rt;
        subsets.as_str(),
        "/ 0 1/ 000.0.0 001.0.1 010.1.0 011.1.1 111.1.1"
    );
    let functions = elements(alloc, Place::Graphs, Kind::FunctionsOfOne)?;
    assert_eq!(rt;
        functions.as_str(),
        "/ 0 1/ 000.0.0 101.0.1 210.1.0 311.1.1 411.1.1"
    );
    let closed = elements(alloc, Place::DenseGraphs, Kind::SubsetsOfOne)?;
    assert_eq!(rt; closed.as_str(), "/ 0 1/ 000.0.0 001.0.1 010.1.0 111.1.1");
    Ok(())
}

/// An edge k from a to b has four functions at V, and four at E, where k goes to k, and so a along s to a and b along t to b. With the edge, its pairs with them and the truth values they cost 116.
#[test]
fn functions_of_an_edge(rt: HostRuntime) -> Result<(), Fail> {
    let alloc = rt.alloc();
    let functions = elements(alloc, Place::Graphs, Kind::Functions)?;
    assert_eq!(rt;
        functions.as_str(),
        "/ 00 01 10 11/ 00001.0.1 00011.0.3 00101.1.1 00111.1.3"
    );
    assert_eq!(rt;
        cells(alloc, Place::Graphs, Kind::FunctionsAndElements, 4_000_000)?,
        116
    );
    Ok(())
}

/// Over the graphs truth values cost 24 cells, the edge 8, the one element 6, its subsets 41, their pairs 108 and their functions 965, of which there are 4 at V and 73 at E. What occurs
/// twice counts once.
#[test]
fn parts_count_once(rt: HostRuntime) -> Result<(), Fail> {
    let alloc = rt.alloc();
    assert_eq!(rt;
        cells(alloc, Place::Graphs, Kind::PairsOfSubsetsOfOne, 187)?,
        187
    );
    assert_eq!(rt;
        cells(alloc, Place::Graphs, Kind::PairsOfSubsetsOfOne, 186)?,
        0
    );
    assert_eq!(rt;
        cells(alloc, Place::Graphs, Kind::FunctionsOfSubsetsOfOne, 1044)?,
        1044
    );
    assert_eq!(rt;
        cells(alloc, Place::Graphs, Kind::FunctionsOfSubsetsOfOne, 1043)?,
        0
    );
    Ok(())
}

/// Over the sets of four points truth values cost 706 cells, their pairs 7,186, their subsets and their functions 35,747 each, and the pairs of one of these and a truth value 90,082.
#[test]
fn types_over_a_space(rt: HostRuntime) -> Result<(), Fail> {
    let alloc = rt.alloc();
    assert_eq!(rt;
        cells(
            alloc,
            Place::FourPoints,
            Kind::PairsOfTruthValues,
            4_000_000
        )?,
        7_892
    );
    assert_eq!(rt;
        cells(
            alloc,
            Place::FourPoints,
            Kind::SubsetsOfTruthValues,
            4_000_000
        )?,
        126_535
    );
    assert_eq!(rt;
        cells(
            alloc,
            Place::FourPoints,
            Kind::FunctionsOfTruthValues,
            4_000_000
        )?,
        126_535
    );
    Ok(())
}

/// Seven vertices with an edge from each to each have 128 closed subsets at V and 16,384 at E where covers are dense, for 1,098,880 cells, beside 210 of their own and 20 of the truth values. A
/// set of five elements has 2^32 sets of subsets, which are over.
#[test]
fn many_subsets(rt: HostRuntime) -> Result<(), Fail> {
    let alloc = rt.alloc();
    assert_eq!(rt;
        cells(alloc, Place::DenseGraphs, Kind::Subsets, 4_000_000)?,
        1_099_110
    );
    assert_eq!(rt;
        cells(alloc, Place::Point, Kind::SubsetsOfSubsets, 4_000_000)?,
        0
    );
    Ok(())
}

#[derive(Clone, Copy)]
enum Operation {
    Meet,
    Join,
    Implies,
    Least,
    Greatest,
    Holds,
}

// What an operation gives at c for a and each truth value, as digits.
fn digits(values: &Omega, c: u32, a: u32, operation: Operation) -> u64
    requires object { c < length values.now.sieves }
    requires arrow { c < max_arrows }
    requires range { IsInRange values.now c }
    requires first { a < length (rows_at values.now c) }
{
    let mut digits: u64 = 0;
    for b in 0..values.count(c) {
        let value = match operation {
            Operation::Meet => values.meet(c, a, b),
            Operation::Join => values.join(c, a, b),
            Operation::Implies => values.implies(c, a, b),
            Operation::Least => values.least(c),
            Operation::Greatest => values.greatest(c),
            Operation::Holds => u32::from(values.holds(c, b)),
        };
        digits = digits.wrapping_mul(10).wrapping_add(u64::from(value));
    }
    digits
}

// The same on the second object, or 0 where there is no such truth value.
fn second_digits(site: &Site, values: &Omega, a: u32, operation: Operation) -> u64
    requires values { IsOmegaOn site.now values.now }
    requires object { 1 < site.now.category.objects }
{
    if a < values.count(1) {
        digits(values, 1, a, operation)
    } else {
        0
    }
}

// The same on E.
fn on_edges(alloc: Global, place: Place, a: u32, operation: Operation) -> Result<u64, Fail> {
    let site = site_of(alloc, place)?;
    operated(alloc, &site, a, operation)
}

fn operated(alloc: Global, site: &Site, a: u32, operation: Operation) -> Result<u64, Fail> {
    let mut store = empty_store(alloc, site, 4_000_000)?;
    let values = Omega::need(alloc, &mut store, site)?;
    if site.cat().objects() == 2 {
        Ok(second_digits(site, &values, a, operation))
    } else {
        Err(Fail::new("no graphs"))
    }
}

/// On E stand the sieves {}, {t}, {s}, {s, t} and all, of numbers 0 to 4. Where covers are dense, {s, t} is not closed, and {t} and {s} are together everything.
#[test]
fn operations_on_sieves(rt: HostRuntime) -> Result<(), Fail> {
    let alloc = rt.alloc();
    assert_eq!(rt; on_edges(alloc, Place::Graphs, 3, Operation::Meet)?, 1233);
    assert_eq!(rt; on_edges(alloc, Place::Graphs, 1, Operation::Join)?, 11334);
    assert_eq!(rt;
        on_edges(alloc, Place::Graphs, 1, Operation::Implies)?,
        24244
    );
    assert_eq!(rt; on_edges(alloc, Place::Graphs, 0, Operation::Least)?, 0);
    assert_eq!(rt;
        on_edges(alloc, Place::Graphs, 0, Operation::Greatest)?,
        44444
    );
    assert_eq!(rt; on_edges(alloc, Place::Graphs, 0, Operation::Holds)?, 1);
    assert_eq!(rt;
        on_edges(alloc, Place::DenseGraphs, 1, Operation::Join)?,
        1133
    );
    Ok(())
}
