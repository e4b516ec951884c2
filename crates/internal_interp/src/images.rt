// Maps at values.
ghost use Rattle.std.specs.Prelude.{◌≡◌, ◌<◌, ◌^◌, [], List, length, get_or, IfOk};
ghost use Rattle.topos_model.specs.declared.ty.Ty.{Ty};
ghost use Rattle.topos_model.specs.declared.term.Term.{Term, App};
ghost use Rattle.topos_model.specs.declared.context.MapTy.{MapTy};
ghost use Rattle.topos_model.specs.formulas.Typing.{ends_of};
ghost use Rattle.topos_model.specs.formulas.Forcing.{World};
ghost use Rattle.internal_interp.specs.Known.{IsValued};
ghost use Rattle.internal_interp.specs.Images.{IsArgument};

use crate::{Context, Interpreter, Valued};
use std::alloc::Global;
use term_tables::{image_table, star_table};
use topos_model::{Copied, NoMemory, Ty};

/// A map at an argument. One without a number goes from the type with one element to itself.
pub(crate) fn image(
    alloc: Global,
    interpreter: &Interpreter<'_>,
    context: &Context,
    map: u32,
    argument: Valued,
) -> Result<Valued, NoMemory>
    requires objects { length (get_or context.now.sizes 0 []) < 2 ^ 32 }
    requires known { (w : World) × (maps : List MapTy) × (Γ : List Ty) × (t : Term) × IsArgument w maps interpreter.now Γ map context.now t argument }
    ensures { IfOk result (λ value. (w : World) (maps : List MapTy) (Γ : List Ty) (t : Term) → IsArgument w maps interpreter.now Γ map context.now t argument → IsValued w Γ (ends_of maps map).cod (App map t) value) }
{
    if (map as usize) < interpreter.maps.len() {
        let table = &interpreter.maps[map as usize];
        let numbers = image_table(
            alloc,
            context.tuples(),
            table.rows.as_slice(),
            &argument.numbers,
        )?;
        let ty = table.ends.cod.copy(alloc)?;
        return Ok(Valued { ty, numbers });
    }
    let numbers = star_table(alloc, context.tuples())?;
    Ok(Valued {
        ty: Ty::One,
        numbers,
    })
}
