// The statements that make a presheaf by its universal property.
ghost use Rattle.std.specs.Prelude.{◌≡◌, ◌≤◌, ◌<◌, ◌&&◌, [], ◌∷◌, true, eqb, length, IfOk, IfErr};
ghost use Rattle.topos_session.specs.Ranges.{is_in_range};
ghost use Rattle.natural_maps.specs.Room.{max_room};
ghost use Rattle.topos_session.specs.Declarations.{AreLawful};
ghost use Rattle.topos_session.specs.Constructions.{is_construction, property, fit, between_functors, parallel_maps, maps_with_domain, maps_with_codomain, functor_map_at, IsFunctorMap, IsUnfit, between, AsProduct, AsCoproduct, AsEqualizer, AsCoequalizer, AsPullback, AsPushout, AsImage, AsInitial, IsMade, IsUnmade};

use crate::Stop;
use crate::declarations::{Declarations, FunctorMap};
use fin_category::Cat;
use finite_colimits::{coequalizer, coproduct, empty, pushout};
use finite_limits::{equalizer, image, product, pullback};
use natural_maps::{Made1, Made2, NatMap};
use presheaf_core::Functor;
use std::alloc::Global;
use topos_model::{Fault, MapTable, MapTy, NoMemory, Row, Stmt, Ty};

/// A presheaf that a statement makes, with its maps.
#[derive(Drop)]
pub struct Construction {
    pub functor: Functor,
    pub maps: Row<MapTable>,
}

/// The map with these components between the presheaves of these numbers.
pub(crate) fn between(dom: u32, cod: u32, map: NatMap) -> MapTable
    ensures { result ≡ between dom cod map }
{
    MapTable {
        ends: MapTy {
            dom: Ty::Base(dom),
            cod: Ty::Base(cod),
        },
        rows: map.into_rows(),
    }
}

// The map m, where it goes from a presheaf to a presheaf.
fn one_map(alloc: Global, cat: &Cat, so: &Declarations, m: u32) -> Result<FunctorMap, Stop>
    requires lawful { AreLawful cat.now so.now }
    requires number { m < length so.now.maps }
    ensures is { IfOk result (λ map. map ≡ functor_map_at so.now.maps m) }
    ensures between { IfOk result (λ map. between_functors so.now.maps m ≡ true) }
    ensures lawful { IfOk result (λ map. IsFunctorMap cat.now so.now.world.functors map) }
    ensures stop { IfErr result (IsUnfit (between_functors so.now.maps m)) }
{
    let _ = cat;
    match so.functor_map(alloc, m)? {
        Some(map) => Ok(map),
        None => Err(Stop::Refused(Fault::NotParallel)),
    }
}

// The maps m and n, where both do.
fn two_maps(
    alloc: Global,
    cat: &Cat,
    so: &Declarations,
    m: u32,
    n: u32,
) -> Result<(FunctorMap, FunctorMap), Stop>
    requires lawful { AreLawful cat.now so.now }
    requires first { m < length so.now.maps }
    requires second { n < length so.now.maps }
    ensures first { IfOk result (λ maps. maps.0 ≡ functor_map_at so.now.maps m) }
    ensures second { IfOk result (λ maps. maps.1 ≡ functor_map_at so.now.maps n) }
    ensures first_between { IfOk result (λ maps. between_functors so.now.maps m ≡ true) }
    ensures second_between { IfOk result (λ maps. between_functors so.now.maps n ≡ true) }
    ensures first_lawful { IfOk result (λ maps. IsFunctorMap cat.now so.now.world.functors maps.0) }
    ensures second_lawful { IfOk result (λ maps. IsFunctorMap cat.now so.now.world.functors maps.1) }
    ensures stop { IfErr result (IsUnfit (between_functors so.now.maps m && between_functors so.now.maps n)) }
{
    let first = one_map(alloc, cat, so, m)?;
    let second = one_map(alloc, cat, so, n)?;
    Ok((first, second))
}

// Whether two maps have the same domain and the same codomain.
fn are_parallel(first: &FunctorMap, second: &FunctorMap) -> bool
    ensures { result ≡ (eqb first.now.dom second.now.dom && eqb first.now.cod second.now.cod) }
{
    first.dom == second.dom && first.cod == second.cod
}

// Whether two maps have the same domain.
fn have_same_domain(first: &FunctorMap, second: &FunctorMap) -> bool
    ensures { result ≡ eqb first.now.dom second.now.dom }
{
    first.dom == second.dom
}

// Whether two maps have the same codomain.
fn have_same_codomain(first: &FunctorMap, second: &FunctorMap) -> bool
    ensures { result ≡ eqb first.now.cod second.now.cod }
{
    first.cod == second.cod
}

// A presheaf with one map.
fn with_one(alloc: Global, functor: Functor, map: MapTable) -> Result<Construction, NoMemory>
    ensures functor { IfOk result (λ made. made.functor ≡ functor) }
    ensures maps { IfOk result (λ made. made.maps ≡ map ∷ []) }
{
    let mut maps = Row::new(alloc);
    maps.push(map)?;
    Ok(Construction { functor, maps })
}

// A presheaf with two maps.
fn with_two(
    alloc: Global,
    functor: Functor,
    first: MapTable,
    second: MapTable,
) -> Result<Construction, NoMemory>
    ensures functor { IfOk result (λ made. made.functor ≡ functor) }
    ensures maps { IfOk result (λ made. made.maps ≡ first ∷ second ∷ []) }
{
    let mut maps = Row::new(alloc);
    maps.push(first)?;
    maps.push(second)?;
    Ok(Construction { functor, maps })
}

// The product of x and y.
fn product_of(
    alloc: Global,
    cat: &Cat,
    so: &Declarations,
    x: u32,
    y: u32,
    functor: u32,
    room: u64,
) -> Result<Construction, Stop>
    requires lawful { AreLawful cat.now so.now }
    requires first { x < length so.now.world.functors }
    requires second { y < length so.now.world.functors }
    requires room { room ≤ max_room }
    ensures made { IfOk result (IsMade cat.now room true (AsProduct cat.now so.now x y functor)) }
    ensures stop { IfErr result (IsUnmade cat.now room true (AsProduct cat.now so.now x y functor)) }
{
    match product(alloc, cat, so.functor(x), so.functor(y), room)? {
        Made2::Over => Err(Stop::Budget),
        Made2::Made(made, p, q) => {
            let first = between(functor, x, p);
            let second = between(functor, y, q);
            Ok(with_two(alloc, made, first, second)?)
        }
    }
}

// The coproduct of x and y.
fn coproduct_of(
    alloc: Global,
    cat: &Cat,
    so: &Declarations,
    x: u32,
    y: u32,
    functor: u32,
    room: u64,
) -> Result<Construction, Stop>
    requires lawful { AreLawful cat.now so.now }
    requires first { x < length so.now.world.functors }
    requires second { y < length so.now.world.functors }
    requires room { room ≤ max_room }
    ensures made { IfOk result (IsMade cat.now room true (AsCoproduct cat.now so.now x y functor)) }
    ensures stop { IfErr result (IsUnmade cat.now room true (AsCoproduct cat.now so.now x y functor)) }
{
    match coproduct(alloc, cat, so.functor(x), so.functor(y), room)? {
        Made2::Over => Err(Stop::Budget),
        Made2::Made(made, p, q) => {
            let first = between(x, functor, p);
            let second = between(y, functor, q);
            Ok(with_two(alloc, made, first, second)?)
        }
    }
}

// The equalizer of the maps m and n, whose ends are to be the same.
fn equalizer_of(
    alloc: Global,
    cat: &Cat,
    so: &Declarations,
    m: u32,
    n: u32,
    functor: u32,
    room: u64,
) -> Result<Construction, Stop>
    requires lawful { AreLawful cat.now so.now }
    requires first { m < length so.now.maps }
    requires second { n < length so.now.maps }
    requires room { room ≤ max_room }
    ensures made { IfOk result (IsMade cat.now room (parallel_maps so.now.maps m n) (AsEqualizer cat.now so.now m n functor)) }
    ensures stop { IfErr result (IsUnmade cat.now room (parallel_maps so.now.maps m n) (AsEqualizer cat.now so.now m n functor)) }
{
    let (first, second) = two_maps(alloc, cat, so, m, n)?;
    if !are_parallel(&first, &second) {
        return Err(Stop::Refused(Fault::NotParallel));
    }
    let x = so.functor(first.dom);
    let y = so.functor(first.cod);
    match equalizer(alloc, cat, x, y, &first.map, &second.map, room)? {
        Made1::Over => Err(Stop::Budget),
        Made1::Made(made, map) => Ok(with_one(alloc, made, between(functor, first.dom, map))?),
    }
}

// The coequalizer of the maps m and n, whose ends are to be the same.
fn coequalizer_of(
    alloc: Global,
    cat: &Cat,
    so: &Declarations,
    m: u32,
    n: u32,
    functor: u32,
    room: u64,
) -> Result<Construction, Stop>
    requires lawful { AreLawful cat.now so.now }
    requires first { m < length so.now.maps }
    requires second { n < length so.now.maps }
    requires room { room ≤ max_room }
    ensures made { IfOk result (IsMade cat.now room (parallel_maps so.now.maps m n) (AsCoequalizer cat.now so.now m n functor)) }
    ensures stop { IfErr result (IsUnmade cat.now room (parallel_maps so.now.maps m n) (AsCoequalizer cat.now so.now m n functor)) }
{
    let (first, second) = two_maps(alloc, cat, so, m, n)?;
    if !are_parallel(&first, &second) {
        return Err(Stop::Refused(Fault::NotParallel));
    }
    let x = so.functor(first.dom);
    let y = so.functor(first.cod);
    match coequalizer(alloc, cat, x, y, &first.map, &second.map, room)? {
        Made1::Over => Err(Stop::Budget),
        Made1::Made(made, map) => Ok(with_one(alloc, made, between(first.cod, functor, map))?),
    }
}

// The pullback of the maps m and n, whose codomains are to be the same.
fn pullback_of(
    alloc: Global,
    cat: &Cat,
    so: &Declarations,
    m: u32,
    n: u32,
    functor: u32,
    room: u64,
) -> Result<Construction, Stop>
    requires lawful { AreLawful cat.now so.now }
    requires first { m < length so.now.maps }
    requires second { n < length so.now.maps }
    requires room { room ≤ max_room }
    ensures made { IfOk result (IsMade cat.now room (maps_with_codomain so.now.maps m n) (AsPullback cat.now so.now m n functor)) }
    ensures stop { IfErr result (IsUnmade cat.now room (maps_with_codomain so.now.maps m n) (AsPullback cat.now so.now m n functor)) }
{
    let (first, second) = two_maps(alloc, cat, so, m, n)?;
    if !have_same_codomain(&first, &second) {
        return Err(Stop::Refused(Fault::NotParallel));
    }
    let x = so.functor(first.dom);
    let y = so.functor(second.dom);
    let z = so.functor(first.cod);
    match pullback(alloc, cat, x, y, z, &first.map, &second.map, room)? {
        Made2::Over => Err(Stop::Budget),
        Made2::Made(made, p, q) => {
            let left = between(functor, first.dom, p);
            let right = between(functor, second.dom, q);
            Ok(with_two(alloc, made, left, right)?)
        }
    }
}

// The pushout of the maps m and n, whose domains are to be the same.
fn pushout_of(
    alloc: Global,
    cat: &Cat,
    so: &Declarations,
    m: u32,
    n: u32,
    functor: u32,
    room: u64,
) -> Result<Construction, Stop>
    requires lawful { AreLawful cat.now so.now }
    requires first { m < length so.now.maps }
    requires second { n < length so.now.maps }
    requires room { room ≤ max_room }
    ensures made { IfOk result (IsMade cat.now room (maps_with_domain so.now.maps m n) (AsPushout cat.now so.now m n functor)) }
    ensures stop { IfErr result (IsUnmade cat.now room (maps_with_domain so.now.maps m n) (AsPushout cat.now so.now m n functor)) }
{
    let (first, second) = two_maps(alloc, cat, so, m, n)?;
    if !have_same_domain(&first, &second) {
        return Err(Stop::Refused(Fault::NotParallel));
    }
    let x = so.functor(first.dom);
    let y = so.functor(first.cod);
    let z = so.functor(second.cod);
    match pushout(alloc, cat, x, y, z, &first.map, &second.map, room)? {
        Made2::Over => Err(Stop::Budget),
        Made2::Made(made, p, q) => {
            let left = between(first.cod, functor, p);
            let right = between(second.cod, functor, q);
            Ok(with_two(alloc, made, left, right)?)
        }
    }
}

// The image of the map m.
fn image_of(
    alloc: Global,
    cat: &Cat,
    so: &Declarations,
    m: u32,
    functor: u32,
    room: u64,
) -> Result<Construction, Stop>
    requires lawful { AreLawful cat.now so.now }
    requires map { m < length so.now.maps }
    requires room { room ≤ max_room }
    ensures made { IfOk result (IsMade cat.now room (between_functors so.now.maps m) (AsImage cat.now so.now m functor)) }
    ensures stop { IfErr result (IsUnmade cat.now room (between_functors so.now.maps m) (AsImage cat.now so.now m functor)) }
{
    let map = one_map(alloc, cat, so, m)?;
    let x = so.functor(map.dom);
    let y = so.functor(map.cod);
    match image(alloc, cat, x, y, &map.map, room)? {
        Made2::Over => Err(Stop::Budget),
        Made2::Made(made, onto, inclusion) => {
            let left = between(map.dom, functor, onto);
            let right = between(functor, map.cod, inclusion);
            Ok(with_two(alloc, made, left, right)?)
        }
    }
}

// The initial presheaf. It has no element, so it is within every budget.
fn initial(alloc: Global, cat: &Cat, so: &Declarations, room: u64) -> Result<Construction, Stop>
    ensures made { IfOk result (IsMade cat.now room true (AsInitial cat.now so.now)) }
    ensures stop { IfErr result (IsUnmade cat.now room true (AsInitial cat.now so.now)) }
{
    let _ = so;
    let functor = empty(alloc, cat)?;
    if functor.cells(cat) > room {
        return Err(Stop::Budget);
    }
    let maps = Row::new(alloc);
    Ok(Construction { functor, maps })
}

/// What a statement makes by a universal property, within the budget. It is refused where the ends of its maps do not fit, and is over the budget where what
/// has the property has more cells. Want of memory is the only other error.
pub(crate) fn construct(
    alloc: Global,
    cat: &Cat,
    so: &Declarations,
    stmt: &Stmt,
    budget: u64,
) -> Result<Construction, Stop>
    requires lawful { AreLawful cat.now so.now }
    requires construction { is_construction stmt.now ≡ true }
    requires range { is_in_range cat.now.objects cat.now.ends (length so.now.world.functors) (length so.now.maps) stmt.now ≡ true }
    requires budget { budget ≤ max_room }
    ensures made { IfOk result (IsMade cat.now budget (fit so.now.maps stmt.now) (property cat.now so.now stmt.now)) }
    ensures stop { IfErr result (IsUnmade cat.now budget (fit so.now.maps stmt.now) (property cat.now so.now stmt.now)) }
{
    match stmt {
        Stmt::Product { x, y, functor, .. } => product_of(alloc, cat, so, *x, *y, *functor, budget),
        Stmt::Coproduct { x, y, functor, .. } => {
            coproduct_of(alloc, cat, so, *x, *y, *functor, budget)
        }
        Stmt::Equalizer { m, n, functor, .. } => {
            equalizer_of(alloc, cat, so, *m, *n, *functor, budget)
        }
        Stmt::Coequalizer { m, n, functor, .. } => {
            coequalizer_of(alloc, cat, so, *m, *n, *functor, budget)
        }
        Stmt::Pullback { m, n, functor, .. } => {
            pullback_of(alloc, cat, so, *m, *n, *functor, budget)
        }
        Stmt::Pushout { m, n, functor, .. } => pushout_of(alloc, cat, so, *m, *n, *functor, budget),
        Stmt::Image { m, functor, .. } => image_of(alloc, cat, so, *m, *functor, budget),
        Stmt::Empty { .. } => initial(alloc, cat, so, budget),
        _ => unreachable!(),
    }
}
