// Whether the numbers of a document are in range.
ghost use Rattle.std.specs.Prelude.{◌≡◌, ◌≤◌, ◌+◌, ◌&&◌, length, eqb, leb, ltb, IfOk};
ghost use Rattle.std.specs.List.{list_all};
ghost use Rattle.term_ranges.specs.Ranges.{is_type_in_range};
ghost use Rattle.topos_session.specs.Ranges.{goes_into, is_family_in_range, is_topology_in_range, is_formula_in_range, is_in_range, declares, are_in_range, has_range, max_statements};

use crate::listing::{is_map_listing, is_presheaf_listing};
use fin_category::{all_ends, is_listing};
use std::alloc::Global;
use term_ranges::{is_term_in_range, is_type_in_range};
use topos_model::{Ctx, Doc, Family, NoMemory, Stmt, Term, TopDecl, Ty};

// How many statements a document may have, those of its site among them.
const MAX_STATEMENTS: u32 = 10_000;

// Whether there are no more statements than a document may have.
fn are_few(site_len: u32, stmts: usize) -> bool
    ensures { result ≡ leb (site_len + stmts) max_statements }
{
    site_len <= MAX_STATEMENTS && stmts <= (MAX_STATEMENTS - site_len) as usize
}

// Whether each functor that one of the types names is among the first ones.
fn are_types_in_range(functors: u32, types: &[Ty]) -> bool
    ensures { result ≡ list_all (is_type_in_range functors) types.now }
{
    types.iter().all(|ty| is_type_in_range(functors, ty))
}

// Whether the functors that a formula and its context name, and the maps that it applies, are declared.
#[tactic(auto, unfolding(crate::specs::Ranges::is_formula_in_range))]
fn is_formula_in_range(counts: Counts, ctx: &Ctx, phi: &Term) -> bool
    ensures { result ≡ is_formula_in_range counts.functors counts.maps ctx.now phi.now }
{
    are_types_in_range(counts.functors, ctx.types.as_slice())
        && is_term_in_range(counts.functors, counts.maps, phi)
}

// How many functors and maps a statement declares, where it is of a kind that is run.
#[tactic(auto, using(crate::proofs::StatementForms::declared_rules))]
fn declares(stmt: &Stmt) -> Option<(u32, u32)>
    ensures { result ≡ declares stmt.now }
{
    match stmt {
        Stmt::Presheaf { .. } => Some((1, 0)),
        Stmt::Map { .. } => Some((0, 1)),
        Stmt::Product { .. } => Some((1, 2)),
        Stmt::Coproduct { .. } => Some((1, 2)),
        Stmt::Equalizer { .. } => Some((1, 1)),
        Stmt::Coequalizer { .. } => Some((1, 1)),
        Stmt::Pullback { .. } => Some((1, 2)),
        Stmt::Pushout { .. } => Some((1, 2)),
        Stmt::Image { .. } => Some((1, 2)),
        Stmt::Empty { .. } => Some((1, 0)),
        Stmt::Sheaf { .. } => Some((0, 0)),
        Stmt::Hom { .. } => Some((0, 0)),
        Stmt::Show { .. } => Some((0, 0)),
        Stmt::Classify { .. } => Some((0, 0)),
        Stmt::Valid { .. } => Some((0, 0)),
        Stmt::Build { .. } => Some((1, 2)),
        Stmt::Sub { .. } => Some((1, 1)),
        Stmt::Let { .. } => Some((0, 1)),
        _ => None,
    }
}

// How many functors and maps are declared before a statement.
#[derive(Clone, Copy, Debug, PartialEq, Eq)]
struct Counts {
    functors: u32,
    maps: u32,
}

// Whether two functors are declared, and a third is declared behind them.
fn are_functors(counts: Counts, x: u32, y: u32, functor: u32) -> bool
    ensures { result ≡ (eqb functor counts.functors && ltb x counts.functors && ltb y counts.functors) }
{
    functor == counts.functors && x < counts.functors && y < counts.functors
}

// Whether two maps are declared, and a functor is declared behind all others.
fn are_maps(counts: Counts, m: u32, n: u32, functor: u32) -> bool
    ensures { result ≡ (eqb functor counts.functors && ltb m counts.maps && ltb n counts.maps) }
{
    functor == counts.functors && m < counts.maps && n < counts.maps
}

// Whether the numbers of a statement are in range.
#[tactic(auto, using(crate::proofs::StatementForms::range_rules))]
fn is_in_range(
    alloc: Global,
    objects: u32,
    ends: &[(u32, u32)],
    counts: Counts,
    stmt: &Stmt,
) -> Result<bool, NoMemory>
    ensures { IfOk result (λ answer. answer ≡ is_in_range objects ends.now counts.functors counts.maps stmt.now) }
{
    match stmt {
        Stmt::Presheaf { functor, raw } => {
            if *functor != counts.functors {
                return Ok(false);
            }
            is_presheaf_listing(alloc, objects, ends, raw)
        }
        Stmt::Map { dom, cod, raw, .. } => {
            if *dom >= counts.functors || *cod >= counts.functors {
                return Ok(false);
            }
            is_map_listing(alloc, objects, raw.entries.as_slice())
        }
        Stmt::Product { x, y, functor, .. } => Ok(are_functors(counts, *x, *y, *functor)),
        Stmt::Coproduct { x, y, functor, .. } => Ok(are_functors(counts, *x, *y, *functor)),
        Stmt::Equalizer { m, n, functor, .. } => Ok(are_maps(counts, *m, *n, *functor)),
        Stmt::Coequalizer { m, n, functor, .. } => Ok(are_maps(counts, *m, *n, *functor)),
        Stmt::Pullback { m, n, functor, .. } => Ok(are_maps(counts, *m, *n, *functor)),
        Stmt::Pushout { m, n, functor, .. } => Ok(are_maps(counts, *m, *n, *functor)),
        Stmt::Image { m, functor, .. } => Ok(*functor == counts.functors && *m < counts.maps),
        Stmt::Sheaf { x, .. } => Ok(*x < counts.functors),
        Stmt::Hom { x, y } => Ok(*x < counts.functors && *y < counts.functors),
        Stmt::Show { ctx, phi, .. } => Ok(is_formula_in_range(counts, ctx, phi)),
        Stmt::Classify { ctx, phi, .. } => Ok(is_formula_in_range(counts, ctx, phi)),
        Stmt::Valid { ctx, phi, .. } => Ok(is_formula_in_range(counts, ctx, phi)),
        Stmt::Build { functor, ty, .. } => {
            Ok(*functor == counts.functors && is_type_in_range(counts.functors, ty))
        }
        Stmt::Sub {
            functor,
            ty,
            phi,
            ..
        } => Ok(
            *functor == counts.functors
                && is_type_in_range(counts.functors, ty)
                && is_term_in_range(counts.functors, counts.maps, phi),
        ),
        Stmt::Let { ty, term, .. } => Ok(
            is_type_in_range(counts.functors, ty)
                && is_term_in_range(counts.functors, counts.maps, term),
        ),
        _ => Ok(true),
    }
}

// Whether the numbers of all statements are in range, up to the first of a kind that is not run.
fn are_in_range(
    alloc: Global,
    objects: u32,
    ends: &[(u32, u32)],
    stmts: &[Stmt],
) -> Result<bool, NoMemory>
    requires { length stmts.now ≤ max_statements }
    ensures { IfOk result (λ answer. answer ≡ are_in_range objects ends.now 0 0 stmts.now) }
{
    let mut counts = Counts {
        functors: 0,
        maps: 0,
    };
    for stmt in stmts {
        match declares(stmt) {
            None => return Ok(true),
            Some((functors, maps)) => {
                if !is_in_range(alloc, objects, ends, counts, stmt)? {
                    return Ok(false);
                }
                counts = Counts {
                    functors: counts.functors + functors,
                    maps: counts.maps + maps,
                };
            }
        }
    }
    Ok(true)
}

// Whether f is an arrow into c.
fn goes_into(ends: &[(u32, u32)], c: u32, f: u32) -> bool
    ensures { result ≡ goes_into ends.now c f }
{
    match ends.get(f as usize) {
        Some(here) => here.1 == c,
        None => false,
    }
}

// Whether the arrows of a family go into its object.
fn is_family_in_range(ends: &[(u32, u32)], family: &Family) -> bool
    ensures { result ≡ is_family_in_range ends.now family.now }
{
    family
        .arrows
        .as_slice()
        .iter()
        .all(|f| goes_into(ends, family.at, *f))
}

fn are_families_in_range(ends: &[(u32, u32)], families: &[Family]) -> bool
    ensures { result ≡ list_all (is_family_in_range ends.now) families.now }
{
    families
        .iter()
        .all(|family| is_family_in_range(ends, family))
}

// Whether those of the families of a topology do.
#[tactic(auto, unfolding(crate::specs::Ranges::is_topology_in_range))]
fn is_topology_in_range(ends: &[(u32, u32)], top: &TopDecl) -> bool
    ensures { result ≡ is_topology_in_range ends.now top.now }
{
    if top.dense {
        return top.covers.len() == 0;
    }
    are_families_in_range(ends, top.covers.as_slice())
}

fn are_topologies_in_range(ends: &[(u32, u32)], tops: &[TopDecl]) -> bool
    ensures { result ≡ list_all (is_topology_in_range ends.now) tops.now }
{
    tops.iter().all(|top| is_topology_in_range(ends, top))
}

/// Whether the numbers of a document are in range, as far as the statements need it that are run. Any document may be given; want of memory is the only error.
pub(crate) fn has_range(alloc: Global, doc: &Doc) -> Result<bool, NoMemory>
    ensures { IfOk result (λ answer. answer ≡ has_range doc.now) }
{
    if !are_few(doc.site_len, doc.stmts.len()) || !is_listing(&doc.cat) {
        return Ok(false);
    }
    let ends = all_ends(alloc, &doc.cat)?;
    if !are_topologies_in_range(ends.as_slice(), doc.tops.as_slice()) {
        return Ok(false);
    }
    are_in_range(
        alloc,
        doc.cat.objects,
        ends.as_slice(),
        doc.stmts.as_slice(),
    )
}
