// Maps that terms define.
ghost use Rattle.std.specs.Prelude.{◌≡◌, ◌+◌, ◌^◌, ◌<◌, true, [], ◌∷◌, length, IfOk, IfErr, OnErr, OnOk};
ghost use Rattle.topos_model.specs.declared.stmt.Stmt.TheVariants as statement;
ghost use Rattle.topos_model.specs.types.Nodes.{nodes};
ghost use Rattle.term_ranges.specs.Ranges.{is_type_in_range, is_term_in_range};
ghost use Rattle.topos_session.specs.Declarations.{AreLawful, IsKept};
ghost use Rattle.topos_session.specs.Statements.{IsMapTyped, IsMapTypeStop, IsMapSealed, IsMapStop, IsAnsweredOver, IsStoppedOver};

use crate::Stop;
use crate::declarations::Declarations;
use crate::formulas::seal_types;
use crate::maps::DeclaredMaps;
use std::alloc::Global;
use term_objects::term_map;
use term_typing::counted;
use topos_model::{Answer, Copied, Ctx, Fault, NoMemory, Row, Term, Ty};

// The greatest number of nodes of the type of a map.
const MAX_NODES: u32 = 256;

// One node more than two numbers of nodes. So many that they have no number are want of memory.
fn joined(left: u32, right: u32) -> Result<u32, NoMemory>
    ensures { IfOk result (λ count. count ≡ 1 + left + right) }
{
    let count = 1 + left as u64 + right as u64;
    if count > u32::MAX as u64 {
        return Err(NoMemory);
    }
    Ok(count as u32)
}

// How many nodes a type has.
#[tactic(auto, using(crate::proofs::TypeNodes::node_rules))]
fn nodes_of(ty: &Ty) -> Result<u32, NoMemory>
    ensures { IfOk result (λ count. count ≡ nodes ty.now) }
{
    match ty {
        Ty::Base(_) => Ok(1),
        Ty::One => Ok(1),
        Ty::Omega => Ok(1),
        Ty::Two(left, right) => joined(nodes_of(left.get())?, nodes_of(right.get())?),
        Ty::Pow(of) => joined(nodes_of(of.get())?, 0),
        Ty::Fun(from, to) => joined(nodes_of(from.get())?, nodes_of(to.get())?),
    }
}

/// The context of one variable.
pub(crate) fn one_variable(alloc: Global, ty: &Ty) -> Result<Ctx, NoMemory>
    ensures { IfOk result (λ ctx. ctx.types ≡ ty.now ∷ []) }
{
    let mut types = Row::new(alloc);
    types.push(ty.copy(alloc)?)?;
    Ok(Ctx { types })
}

// The types that a term over one variable counts, or why it defines no map.
fn map_types(alloc: Global, maps: &DeclaredMaps, ty: &Ty, term: &Term) -> Result<Row<Ty>, Stop>
    ensures types { IfOk result (λ types. IsMapTyped maps.now ty.now term.now types) }
    ensures stop { IfErr result (λ stop. IsMapTypeStop maps.now ty.now term.now stop) }
{
    let ctx = one_variable(alloc, ty)?;
    let found = counted(alloc, maps.ends(), &ctx, term)?;
    let nodes = nodes_of(&found.ty)?;
    if nodes > MAX_NODES {
        return Err(Stop::Refused(Fault::TypeTooLarge { nodes }));
    }
    Ok(found.types)
}

// Seals the types that a term over one variable counts, where it is accepted and they are within the budget.
fn seal_map(
    alloc: Global,
    so: &mut Declarations,
    under: u32,
    ty: &Ty,
    term: &Term,
) -> Result<(), Stop>
    requires lawful { AreLawful so.old.world.site.category so.old }
    requires type_range { is_type_in_range (length so.old.world.functors) ty.now ≡ true }
    requires range { is_term_in_range (length so.old.world.functors) (length so.old.maps) term.now ≡ true }
    requires few { length so.old.world.functors < 2 ^ 32 }
    ensures sealed { OnOk result (IsMapSealed under ty.now term.now so.old so.new) }
    ensures stop { IfErr result (λ stop. IsMapStop under ty.now term.now so.old stop) }
    ensures unchanged { OnErr result (IsKept so.old so.new) }
{
    if under != 0 {
        return Err(Stop::Refused(Fault::NotBuilt));
    }
    // The laws of the site, for the proof alone.
    so.cat().laws();
    let _top = so.world.site().top();
    let types = map_types(alloc, &so.maps, ty, term)?;
    seal_types(alloc, so, types.as_slice())
}

/// Declares the map that a term over one variable defines, the next one.
pub(crate) fn define(
    alloc: Global,
    so: &mut Declarations,
    under: u32,
    map: u32,
    ty: &Ty,
    term: &Term,
) -> Result<Answer, Stop>
    requires lawful { AreLawful so.old.world.site.category so.old }
    requires type_range { is_type_in_range (length so.old.world.functors) ty.now ≡ true }
    requires range { is_term_in_range (length so.old.world.functors) (length so.old.maps) term.now ≡ true }
    requires few { length so.old.world.functors < 2 ^ 32 }
    ensures answer { IfOk result (λ answer. IsAnsweredOver so.old.world.site.category so.old (statement.Let under map ty.now term.now) answer so.new) }
    ensures stop { IfErr result (IsStoppedOver so.old.world.site.category so.old (statement.Let under map ty.now term.now)) }
    ensures unchanged { OnErr result (IsKept so.old so.new) }
{
    let _ = map;
    seal_map(alloc, so, under, ty, term)?;
    let table = term_map(alloc, &so.world, so.maps.tables(), ty, term)?;
    let mut tables = Row::new(alloc);
    tables.push(table)?;
    so.maps.append(alloc, tables)?;
    Ok(Answer::Quiet)
}
