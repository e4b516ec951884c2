// What formulas over a sealed world show.
ghost use Rattle.std.specs.Prelude.{◌≡◌, map, reverse, IfOk};
ghost use Rattle.topos_model.specs.formulas.Forcing.{shown, tuples, forces};
ghost use Rattle.topos_model.specs.statements.Cells.{objects_of};
ghost use Rattle.topos_model.specs.statements.Answers.{tuple_of, unforced, classified};
ghost use Rattle.formula_answers.specs.Formulas.{world_of, IsFormulaOver};
ghost use Rattle.formula_answers.specs.Stages.{kept};

use crate::interpreting::{elements, interpreter};
use crate::stages::{tuples_with, tuples_with_sieves};
use internal_interp::{formula_truths, scope, term_values};
use sealed_world::SealedWorld;
use std::alloc::Global;
use topos_model::{MapTable, NoMemory, Row, Term, Tuple, Ty};

// The tuples for which the formula is forced, or those for which it is not.
fn tuples_where(
    alloc: Global,
    world: &SealedWorld,
    maps: &[MapTable],
    types: &[Ty],
    formula: &Term,
    forced: bool,
) -> Result<Row<Row<Tuple>>, NoMemory>
    requires formula { IsFormulaOver world.now maps.now (reverse types.now) formula.now }
    ensures { IfOk result (λ stages. stages ≡ map (λ c. map tuple_of (kept forced (forces (world_of world.now maps.now) formula.now c) (tuples (world_of world.now maps.now) (reverse types.now) c))) (objects_of world.now.site.category)) }
{
    let interpreter = interpreter(world, maps);
    let context = scope(alloc, &interpreter, types)?;
    let truths = formula_truths(alloc, &interpreter, &context, formula)?;
    tuples_with(
        alloc,
        &elements(&interpreter),
        types,
        context.tuples(),
        &truths,
        forced,
    )
}

/// For each object the tuples of the context for which the formula is forced, in order (Mac Lane and Moerdijk, VI.6). The outermost variable stands first.
pub fn shown(
    alloc: Global,
    world: &SealedWorld,
    maps: &[MapTable],
    types: &[Ty],
    formula: &Term,
) -> Result<Row<Row<Tuple>>, NoMemory>
    requires formula { IsFormulaOver world.now maps.now (reverse types.now) formula.now }
    ensures stages { IfOk result (λ stages. stages ≡ map (λ c. map tuple_of (shown (world_of world.now maps.now) (reverse types.now) formula.now c)) (objects_of world.now.site.category)) }
{
    tuples_where(alloc, world, maps, types, formula, true)
}

/// For each object the tuples of the context for which the formula is not forced, in order. It is valid if there are none (Mac Lane and Moerdijk, VI.6).
pub fn unforced(
    alloc: Global,
    world: &SealedWorld,
    maps: &[MapTable],
    types: &[Ty],
    formula: &Term,
) -> Result<Row<Row<Tuple>>, NoMemory>
    requires formula { IsFormulaOver world.now maps.now (reverse types.now) formula.now }
    ensures stages { IfOk result (λ stages. stages ≡ map (λ c. map tuple_of (unforced (world_of world.now maps.now) (reverse types.now) formula.now c)) (objects_of world.now.site.category)) }
{
    tuples_where(alloc, world, maps, types, formula, false)
}

/// For each object each tuple of the context with the closed sieve that classifies it: the arrows along which the formula is forced (Mac Lane and Moerdijk, VI.5).
pub fn classified(
    alloc: Global,
    world: &SealedWorld,
    maps: &[MapTable],
    types: &[Ty],
    formula: &Term,
) -> Result<Row<Row<(Tuple, Row<u32>)>>, NoMemory>
    requires formula { IsFormulaOver world.now maps.now (reverse types.now) formula.now }
    ensures stages { IfOk result (λ stages. stages ≡ map (classified (world_of world.now maps.now) (reverse types.now) formula.now) (objects_of world.now.site.category)) }
{
    let interpreter = interpreter(world, maps);
    let context = scope(alloc, &interpreter, types)?;
    let values = term_values(alloc, &interpreter, &context, formula)?;
    tuples_with_sieves(
        alloc,
        &elements(&interpreter),
        types,
        context.tuples(),
        &values.numbers,
    )
}
