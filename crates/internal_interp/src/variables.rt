// Variables.
ghost use Rattle.std.specs.Prelude.{◌≡◌, ◌<◌, ◌^◌, ℕ, [], List, length, get_or, IfOk};
ghost use Rattle.topos_model.specs.declared.ty.Ty.{Ty, One};
ghost use Rattle.topos_model.specs.declared.term.Term.{Var};
ghost use Rattle.topos_model.specs.formulas.Forcing.{World, value};
ghost use Rattle.truth_tables.specs.Standing.{IsNumberTable};
ghost use Rattle.topos_model.specs.declared.context.MapTy.{MapTy};
ghost use Rattle.internal_interp.specs.Contexts.{HasSizes};
ghost use Rattle.internal_interp.specs.Known.{IsScope, IsValued};

use crate::{Context, Interpreter, Valued};
use std::alloc::Global;
use term_tables::star_table;
use topos_model::{Copied, NoMemory, Ty};
use truth_tables::{Numbers, last_variable, outer_variable, row_at};

/// The table of a variable: it is the last one of the context without the variables within it, and each of these makes blocks of the tuples.
pub fn variable_table(alloc: Global, context: &Context, k: u32) -> Result<Numbers, NoMemory>
    requires objects { length (get_or context.now.sizes 0 []) < 2 ^ 32 }
    requires bound { k < length context.now.types }
    requires known { (w : World) × (Γ : List Ty) × HasSizes w Γ context.now }
    ensures { IfOk result (λ numbers. (w : World) (Γ : List Ty) → HasSizes w Γ context.now → IsNumberTable w Γ (get_or Γ k One) (value w (Var k)) numbers) }
{
    let sizes = context.sizes.as_slice();
    let widths = context.widths.as_slice();
    let mut numbers = last_variable(alloc, row_at(sizes, k), row_at(widths, k))?;
    for within in 0..k {
        let outer = k - 1 - within;
        numbers = outer_variable(alloc, row_at(sizes, outer), row_at(widths, outer), &numbers)?;
    }
    Ok(numbers)
}

/// A variable. One that nothing binds is the empty tuple.
pub(crate) fn variable(
    alloc: Global,
    interpreter: &Interpreter<'_>,
    context: &Context,
    k: u32,
) -> Result<Valued, NoMemory>
    requires objects { length (get_or context.now.sizes 0 []) < 2 ^ 32 }
    requires known { (w : World) × (maps : List MapTy) × (Γ : List Ty) × IsScope w maps interpreter.now Γ context.now }
    ensures { IfOk result (λ value. (w : World) (maps : List MapTy) (Γ : List Ty) → IsScope w maps interpreter.now Γ context.now → IsValued w Γ (get_or Γ k One) (Var k) value) }
{
    // What the terms are interpreted over is a condition alone.
    let _ = interpreter;
    if (k as usize) < context.types.len() {
        let ty = context.types.get(k as usize).copy(alloc)?;
        let numbers = variable_table(alloc, context, k)?;
        return Ok(Valued { ty, numbers });
    }
    let numbers = star_table(alloc, context.tuples())?;
    Ok(Valued {
        ty: Ty::One,
        numbers,
    })
}
