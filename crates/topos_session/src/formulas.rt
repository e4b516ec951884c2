// Statements about a formula.
ghost use Rattle.std.specs.Prelude.{◌≡◌, ◌^◌, ◌<◌, ◌≤◌, ℕ, true, length, None, IfOk, IfErr, OnErr, OnOk};
ghost use Rattle.std.specs.List.{flat_map};
ghost use Rattle.finite_lists.specs.Members.{In};
ghost use Rattle.topos_model.specs.declared.ty.Ty.{Base};
ghost use Rattle.topos_model.specs.statements.Needs.{parts};
ghost use Rattle.topos_model.specs.declared.stmt.Stmt.TheVariants as statement;
ghost use Rattle.sealed_world.specs.SealedWorlds.{world_cells};
ghost use Rattle.topos_session.specs.Ranges.{is_formula_in_range};
ghost use Rattle.topos_session.specs.Declarations.{AreLawful, IsKept};
ghost use Rattle.topos_session.specs.Statements.{no_sheaf_among, IsTyped, IsTypeStop, IsSheafStop, AreSealed, IsSealStop, IsFormulaSealed, IsFormulaStop, IsAnsweredOver, IsStoppedOver};

use crate::Stop;
use crate::declarations::Declarations;
use crate::maps::DeclaredMaps;
use formula_answers::{classified, shown, unforced};
use std::alloc::Global;
use term_typing::{counted, names_functor};
use topos_model::{Answer, Copied, Ctx, Fault, Row, Term, Ty};

// The types that a formula counts, or why it is none.
fn formula_types(alloc: Global, maps: &DeclaredMaps, ctx: &Ctx, phi: &Term) -> Result<Row<Ty>, Stop>
    ensures types { IfOk result (λ types. IsTyped maps.now ctx.now phi.now types) }
    ensures stop { IfErr result (λ stop. IsTypeStop maps.now ctx.now phi.now stop) }
{
    let found = counted(alloc, maps.ends(), ctx, phi)?;
    let needed = Ty::Omega;
    if needed == found.ty {
        return Ok(found.types);
    }
    Err(Stop::Refused(Fault::Expected {
        needed,
        found: found.ty,
    }))
}

// The first presheaf that occurs in types and is no sheaf refuses them.
fn name_sheaves(alloc: Global, so: &mut Declarations, types: &[Ty]) -> Result<(), Stop>
    requires few { length so.old.world.functors < 2 ^ 32 }
    ensures sheaves { OnOk result (no_sheaf_among so.old.world (flat_map parts types.now) ≡ None) }
    ensures stop { IfErr result (λ stop. IsSheafStop so.old.world (flat_map parts types.now) stop) }
    ensures unchanged { so.new ≡ so.old }
{
    for n in 0..so.world.functors().len() as u32 {
        if names_functor(types, n) && !so.world.is_sheaf(alloc, n)? {
            return Err(Stop::Refused(Fault::NotASheaf { functor: n }));
        }
    }
    Ok(())
}

// Seals types that are counted, where none names a presheaf that is no sheaf and they are within the budget.
pub(crate) fn seal_types(alloc: Global, so: &mut Declarations, types: &[Ty]) -> Result<(), Stop>
    requires few { length so.old.world.functors < 2 ^ 32 }
    requires named { (n : ℕ) → In (flat_map parts types.now) (Base n) → n < length so.old.world.functors }
    ensures sealed { OnOk result (AreSealed types.now so.old so.new) }
    ensures stop { IfErr result (λ stop. IsSealStop types.now so.old stop) }
    ensures unchanged { OnErr result (IsKept so.old so.new) }
{
    name_sheaves(alloc, so, types)?;
    so.world.need(alloc, types)?;
    let _room = so.world.room();
    Ok(())
}

// Seals the types that a formula counts, where it is accepted and they are within the budget.
pub(crate) fn seal_formula(
    alloc: Global,
    so: &mut Declarations,
    under: u32,
    ctx: &Ctx,
    phi: &Term,
) -> Result<(), Stop>
    requires lawful { AreLawful so.old.world.site.category so.old }
    requires range { is_formula_in_range (length so.old.world.functors) (length so.old.maps) ctx.now phi.now ≡ true }
    requires few { length so.old.world.functors < 2 ^ 32 }
    ensures sealed { OnOk result (IsFormulaSealed under ctx.now phi.now so.old so.new) }
    ensures stop { IfErr result (λ stop. IsFormulaStop under ctx.now phi.now so.old stop) }
    ensures unchanged { OnErr result (IsKept so.old so.new) }
{
    if under != 0 {
        return Err(Stop::Refused(Fault::NotBuilt));
    }
    // The laws of the site, for the proof alone.
    so.cat().laws();
    let _top = so.world.site().top();
    let types = formula_types(alloc, &so.maps, ctx, phi)?;
    seal_types(alloc, so, types.as_slice())
}

/// The tuples for which a formula is forced.
pub(crate) fn show(
    alloc: Global,
    so: &mut Declarations,
    under: u32,
    ctx: &Ctx,
    phi: &Term,
) -> Result<Answer, Stop>
    requires lawful { AreLawful so.old.world.site.category so.old }
    requires range { is_formula_in_range (length so.old.world.functors) (length so.old.maps) ctx.now phi.now ≡ true }
    requires few { length so.old.world.functors < 2 ^ 32 }
    requires fits { world_cells so.old.world ≤ so.old.world.budget }
    ensures answer { IfOk result (λ answer. IsAnsweredOver so.old.world.site.category so.old (statement.Show under ctx.now phi.now) answer so.new) }
    ensures stop { IfErr result (IsStoppedOver so.old.world.site.category so.old (statement.Show under ctx.now phi.now)) }
    ensures unchanged { OnErr result (IsKept so.old so.new) }
{
    seal_formula(alloc, so, under, ctx, phi)?;
    let stages = shown(
        alloc,
        &so.world,
        so.maps.tables(),
        ctx.types.as_slice(),
        phi,
    )?;
    let ctx = ctx.copy(alloc)?;
    Ok(Answer::Shown { ctx, stages })
}

/// The sieve of the arrows along which a formula is forced, for each tuple.
pub(crate) fn classify(
    alloc: Global,
    so: &mut Declarations,
    under: u32,
    ctx: &Ctx,
    phi: &Term,
) -> Result<Answer, Stop>
    requires lawful { AreLawful so.old.world.site.category so.old }
    requires range { is_formula_in_range (length so.old.world.functors) (length so.old.maps) ctx.now phi.now ≡ true }
    requires few { length so.old.world.functors < 2 ^ 32 }
    requires fits { world_cells so.old.world ≤ so.old.world.budget }
    ensures answer { IfOk result (λ answer. IsAnsweredOver so.old.world.site.category so.old (statement.Classify under ctx.now phi.now) answer so.new) }
    ensures stop { IfErr result (IsStoppedOver so.old.world.site.category so.old (statement.Classify under ctx.now phi.now)) }
    ensures unchanged { OnErr result (IsKept so.old so.new) }
{
    seal_formula(alloc, so, under, ctx, phi)?;
    let stages = classified(
        alloc,
        &so.world,
        so.maps.tables(),
        ctx.types.as_slice(),
        phi,
    )?;
    let ctx = ctx.copy(alloc)?;
    Ok(Answer::Classified { ctx, stages })
}

/// The tuples for which a formula is not forced.
pub(crate) fn judge(
    alloc: Global,
    so: &mut Declarations,
    under: u32,
    ctx: &Ctx,
    phi: &Term,
) -> Result<Answer, Stop>
    requires lawful { AreLawful so.old.world.site.category so.old }
    requires range { is_formula_in_range (length so.old.world.functors) (length so.old.maps) ctx.now phi.now ≡ true }
    requires few { length so.old.world.functors < 2 ^ 32 }
    requires fits { world_cells so.old.world ≤ so.old.world.budget }
    ensures answer { IfOk result (λ answer. IsAnsweredOver so.old.world.site.category so.old (statement.Valid under ctx.now phi.now) answer so.new) }
    ensures stop { IfErr result (IsStoppedOver so.old.world.site.category so.old (statement.Valid under ctx.now phi.now)) }
    ensures unchanged { OnErr result (IsKept so.old so.new) }
{
    seal_formula(alloc, so, under, ctx, phi)?;
    let unforced = unforced(
        alloc,
        &so.world,
        so.maps.tables(),
        ctx.types.as_slice(),
        phi,
    )?;
    let ctx = ctx.copy(alloc)?;
    Ok(Answer::Verdict { ctx, unforced })
}
