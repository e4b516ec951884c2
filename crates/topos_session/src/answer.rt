// The answer of one statement.
ghost use Rattle.std.specs.Prelude.{◌≡◌, ◌≤◌, ◌<◌, ◌^◌, true, length, IfOk, IfErr, OnErr};
ghost use Rattle.topos_model.specs.declared.stmt.Stmt.TheVariants as statement;
ghost use Rattle.topos_model.specs.presheaves.PresheafFaults.{IsPresheafListing};
ghost use Rattle.topos_model.specs.presheaves.MapFaults.{IsMapListing};
ghost use Rattle.topos_session.specs.Ranges.{is_in_range};
ghost use Rattle.sealed_world.specs.SealedWorlds.{world_cells};
ghost use Rattle.topos_session.specs.Declarations.{AreLawful, IsKept};
ghost use Rattle.topos_session.specs.Constructions.{is_construction};
ghost use Rattle.topos_session.specs.Statements.{IsAnsweredOver, IsStoppedOver};

use crate::Stop;
use crate::constructions::{between, construct};
use crate::declarations::Declarations;
use crate::elements::{declare_part, declare_type};
use crate::formulas::{classify, judge, show};
use crate::homs::listed_maps;
use crate::shapes::built;
use crate::term_maps::define;
use functor_store::Over;
use natural_maps::NatMap;
use presheaf_core::Functor;
use sheaf_test::{SheafVerdict, test};
use std::alloc::Global;
use topos_model::{Answer, Fault, RawFunctor, RawMap, Row, Stmt};

// Declares a listed presheaf, the next one.
fn declare_presheaf(
    alloc: Global,
    so: &mut Declarations,
    functor: u32,
    raw: &RawFunctor,
) -> Result<Answer, Stop>
    requires lawful { AreLawful so.old.world.site.category so.old }
    requires listing { IsPresheafListing so.old.world.site.category raw.now }
    requires few { length so.old.world.functors < 2 ^ 32 }
    requires fits { world_cells so.old.world ≤ so.old.world.budget }
    ensures answer { IfOk result (λ answer. IsAnsweredOver so.old.world.site.category so.old (statement.Presheaf functor raw.now) answer so.new) }
    ensures stop { IfErr result (IsStoppedOver so.old.world.site.category so.old (statement.Presheaf functor raw.now)) }
    ensures unchanged { OnErr result (so.new ≡ so.old) }
{
    let _ = functor;
    let listed = Functor::check(alloc, so.cat(), raw)?;
    so.world.declare(alloc, listed)?;
    let _room = so.world.room();
    Ok(Answer::Quiet)
}

// Declares a listed map between two presheaves, the next one.
fn declare_map(
    alloc: Global,
    so: &mut Declarations,
    number: u32,
    ends: (u32, u32),
    raw: &RawMap,
) -> Result<Answer, Stop>
    requires lawful { AreLawful so.old.world.site.category so.old }
    requires domain { ends.0 < length so.old.world.functors }
    requires codomain { ends.1 < length so.old.world.functors }
    requires listing { IsMapListing so.old.world.site.category raw.now }
    requires fits { world_cells so.old.world ≤ so.old.world.budget }
    ensures answer { IfOk result (λ answer. IsAnsweredOver so.old.world.site.category so.old (statement.Map number ends.0 ends.1 raw.now) answer so.new) }
    ensures stop { IfErr result (IsStoppedOver so.old.world.site.category so.old (statement.Map number ends.0 ends.1 raw.now)) }
    ensures unchanged { OnErr result (so.new ≡ so.old) }
{
    let _ = number;
    let (dom, cod) = ends;
    let map = NatMap::check(alloc, so.cat(), so.functor(dom), so.functor(cod), raw)?;
    let mut tables = Row::new(alloc);
    tables.push(between(dom, cod, map))?;
    so.maps.append(alloc, tables)?;
    Ok(Answer::Quiet)
}

// Makes a presheaf by its universal property and declares it with its maps.
fn build(alloc: Global, so: &mut Declarations, stmt: &Stmt) -> Result<Answer, Stop>
    requires lawful { AreLawful so.old.world.site.category so.old }
    requires construction { is_construction stmt.now ≡ true }
    requires range { is_in_range so.old.world.site.category.objects so.old.world.site.category.ends (length so.old.world.functors) (length so.old.maps) stmt.now ≡ true }
    requires few { length so.old.world.functors < 2 ^ 32 }
    requires fits { world_cells so.old.world ≤ so.old.world.budget }
    ensures answer { IfOk result (λ answer. IsAnsweredOver so.old.world.site.category so.old stmt.now answer so.new) }
    ensures stop { IfErr result (IsStoppedOver so.old.world.site.category so.old stmt.now) }
    ensures unchanged { OnErr result (so.new ≡ so.old) }
{
    let room = so.world.room();
    let made = match construct(alloc, so.cat(), so, stmt, room) {
        Ok(made) => made,
        Err(stop) => return Err(stop),
    };
    let answer = built(alloc, so.cat(), &made)?;
    so.declare(alloc, made.functor, made.maps)?;
    let _room = so.world.room();
    Ok(answer)
}

// Lists all maps between two presheaves.
fn list(alloc: Global, so: &mut Declarations, ends: (u32, u32)) -> Result<Answer, Stop>
    requires lawful { AreLawful so.old.world.site.category so.old }
    requires domain { ends.0 < length so.old.world.functors }
    requires codomain { ends.1 < length so.old.world.functors }
    requires fits { world_cells so.old.world ≤ so.old.world.budget }
    ensures answer { IfOk result (λ answer. IsAnsweredOver so.old.world.site.category so.old (statement.Hom ends.0 ends.1) answer so.new) }
    ensures stop { IfErr result (IsStoppedOver so.old.world.site.category so.old (statement.Hom ends.0 ends.1)) }
    ensures unchanged { OnErr result (so.new ≡ so.old) }
{
    let (x, y) = ends;
    let room = so.world.room();
    let listed = listed_maps(alloc, so.cat(), ends, so.functor(x), so.functor(y), room)?;
    if let Err(Over) = so.world.charge(listed.cells) {
        return Err(Stop::Budget);
    }
    let _room = so.world.room();
    Ok(Answer::Maps(listed.shapes))
}

// Tests whether a presheaf is a sheaf.
fn test_sheaf(alloc: Global, so: &Declarations, under: u32, x: u32) -> Result<Answer, Stop>
    requires lawful { AreLawful so.now.world.site.category so.now }
    requires range { x < length so.now.world.functors }
    requires fits { world_cells so.now.world ≤ so.now.world.budget }
    ensures answer { IfOk result (λ answer. IsAnsweredOver so.now.world.site.category so.now (statement.Sheaf under x) answer so.now) }
    ensures stop { IfErr result (IsStoppedOver so.now.world.site.category so.now (statement.Sheaf under x)) }
{
    if under != 0 {
        return Err(Stop::Refused(Fault::NotBuilt));
    }
    match test(alloc, so.world.site(), so.functor(x))? {
        SheafVerdict::Sheaf => Ok(Answer::Sheaf),
        SheafVerdict::Fails {
            at,
            cover,
            family,
            found,
        } => Ok(Answer::NotSheaf {
            functor: x,
            at,
            cover,
            family,
            found,
        }),
    }
}

/// Answers a statement, and puts last what it declares. Where it does not answer, what is declared is as before, and of the types that it counts some may be sealed. The
/// cells of what is declared and counted so far are within the budget, or stop it.
#[tactic(auto, using(crate::proofs::StatementForms::kind_rules))]
pub(crate) fn answer(alloc: Global, so: &mut Declarations, stmt: &Stmt) -> Result<Answer, Stop>
    requires lawful { AreLawful so.old.world.site.category so.old }
    requires range { is_in_range so.old.world.site.category.objects so.old.world.site.category.ends (length so.old.world.functors) (length so.old.maps) stmt.now ≡ true }
    requires few { length so.old.world.functors < 2 ^ 32 }
    requires fits { world_cells so.old.world ≤ so.old.world.budget }
    ensures answer { IfOk result (λ answer. IsAnsweredOver so.old.world.site.category so.old stmt.now answer so.new) }
    ensures stop { IfErr result (IsStoppedOver so.old.world.site.category so.old stmt.now) }
    ensures unchanged { OnErr result (IsKept so.old so.new) }
{
    match stmt {
        Stmt::Presheaf { functor, raw } => declare_presheaf(alloc, so, *functor, raw),
        Stmt::Map { map, dom, cod, raw } => declare_map(alloc, so, *map, (*dom, *cod), raw),
        Stmt::Product { .. } => build(alloc, so, stmt),
        Stmt::Coproduct { .. } => build(alloc, so, stmt),
        Stmt::Equalizer { .. } => build(alloc, so, stmt),
        Stmt::Coequalizer { .. } => build(alloc, so, stmt),
        Stmt::Pullback { .. } => build(alloc, so, stmt),
        Stmt::Pushout { .. } => build(alloc, so, stmt),
        Stmt::Image { .. } => build(alloc, so, stmt),
        Stmt::Empty { .. } => build(alloc, so, stmt),
        Stmt::Sheaf { under, x } => test_sheaf(alloc, so, *under, *x),
        Stmt::Hom { x, y } => list(alloc, so, (*x, *y)),
        Stmt::Show { under, ctx, phi } => show(alloc, so, *under, ctx, phi),
        Stmt::Classify { under, ctx, phi } => classify(alloc, so, *under, ctx, phi),
        Stmt::Valid { under, ctx, phi } => judge(alloc, so, *under, ctx, phi),
        Stmt::Build {
            under,
            functor,
            ty,
            u,
            v,
        } => declare_type(alloc, so, *under, *functor, ty, (*u, *v)),
        Stmt::Sub {
            under,
            functor,
            ty,
            phi,
            map,
        } => declare_part(alloc, so, *under, *functor, ty, phi, *map),
        Stmt::Let {
            under,
            map,
            ty,
            term,
        } => define(alloc, so, *under, *map, ty, term),
        _ => Err(Stop::Refused(Fault::NotBuilt)),
    }
}
