// Maps that terms define.
ghost use Rattle.std.specs.Prelude.{◌≡◌, true, [], ◌∷◌, length, IfOk};
ghost use Rattle.topos_model.specs.declared.ty.Ty.{Ty};
ghost use Rattle.term_ranges.specs.Ranges.{is_type_in_range, is_term_in_range};
ghost use Rattle.formula_answers.specs.Formulas.{IsTermOver};
ghost use Rattle.term_objects.specs.TermObjects.{IsTermMap};

use formula_answers::interpreter;
use internal_interp::{scope, term_values};
use sealed_world::SealedWorld;
use std::alloc::Global;
use topos_model::{Copied, MapTable, MapTy, NoMemory, Row, Term, Ty};

// The type of the one variable.
pub(crate) fn one_type(alloc: Global, ty: &Ty) -> Result<Row<Ty>, NoMemory>
    ensures { IfOk result (λ types. types ≡ ty.now ∷ []) }
{
    let mut types = Row::new(alloc);
    types.push(ty.copy(alloc)?)?;
    Ok(types)
}

/// The map that a term over one variable defines, from the variable's type to the term's: each element of the type goes to the value of the term there (Mac Lane and Moerdijk, VI.5).
pub fn term_map(
    alloc: Global,
    world: &SealedWorld,
    maps: &[MapTable],
    ty: &Ty,
    term: &Term,
) -> Result<MapTable, NoMemory>
    requires known { (U : Ty) × IsTermOver world.now maps.now (ty.now ∷ []) term.now U }
    requires type_range { is_type_in_range (length world.now.functors) ty.now ≡ true }
    requires range { is_term_in_range (length world.now.functors) (length maps.now) term.now ≡ true }
    ensures map { IfOk result (λ map. (U : Ty) → IsTermOver world.now maps.now (ty.now ∷ []) term.now U → IsTermMap world.now maps.now ty.now term.now U map) }
{
    let interpreter = interpreter(world, maps);
    let types = one_type(alloc, ty)?;
    let context = scope(alloc, &interpreter, types.as_slice())?;
    let values = term_values(alloc, &interpreter, &context, term)?;
    let dom = ty.copy(alloc)?;
    let rows = values.numbers.to_rows(alloc)?;
    Ok(MapTable {
        ends: MapTy {
            dom,
            cod: values.ty,
        },
        rows,
    })
}
