// Formulas as terms of truth values, and these as formulas.
ghost use Rattle.std.specs.Prelude.{◌≡◌, ◌<◌, ◌^◌, [], List, length, get_or, IfOk};
ghost use Rattle.topos_model.specs.declared.ty.Ty.{Ty, Omega as OmegaType};
ghost use Rattle.topos_model.specs.declared.term.Term.{Term};
ghost use Rattle.topos_model.specs.declared.context.MapTy.{MapTy};
ghost use Rattle.topos_model.specs.formulas.Forcing.{World, forces};
ghost use Rattle.truth_tables.specs.Standing.{IsTruthTable};
ghost use Rattle.internal_interp.specs.Known.{IsKnown, IsInterpreted, IsValued};

use crate::{Context, Interpreted, Interpreter, Valued};
use std::alloc::Global;
use term_tables::{formula_table, truth_value_table};
use topos_model::{NoMemory, Ty};
use truth_tables::Truths;

/// Where a term of truth values is forced.
pub(crate) fn truths_of(
    alloc: Global,
    interpreter: &Interpreter<'_>,
    context: &Context,
    interpreted: Interpreted,
) -> Result<Truths, NoMemory>
    requires objects { length (get_or context.now.sizes 0 []) < 2 ^ 32 }
    requires known { (w : World) × (maps : List MapTy) × (Γ : List Ty) × (t : Term) × IsKnown w maps interpreter.now Γ OmegaType context.now t × IsInterpreted w Γ OmegaType t interpreted }
    ensures { IfOk result (λ truths. (w : World) (maps : List MapTy) (Γ : List Ty) (t : Term) → IsKnown w maps interpreter.now Γ OmegaType context.now t → IsInterpreted w Γ OmegaType t interpreted → IsTruthTable w Γ (forces w t) truths) }
{
    match interpreted {
        Interpreted::Formula(truths) => Ok(truths),
        Interpreted::Value(value) => match interpreter.omega {
            Some(omega) => formula_table(alloc, omega, context.tuples(), &value.numbers),
            None => unreachable!(),
        },
    }
}

/// The values of a term: those of a formula are the closed sieves of the arrows along which it is forced.
pub(crate) fn value_of(
    alloc: Global,
    interpreter: &Interpreter<'_>,
    context: &Context,
    interpreted: Interpreted,
) -> Result<Valued, NoMemory>
    requires objects { length (get_or context.now.sizes 0 []) < 2 ^ 32 }
    requires known { (w : World) × (maps : List MapTy) × (Γ : List Ty) × (U : Ty) × (t : Term) × IsKnown w maps interpreter.now Γ U context.now t × IsInterpreted w Γ U t interpreted }
    ensures { IfOk result (λ value. (w : World) (maps : List MapTy) (Γ : List Ty) (U : Ty) (t : Term) → IsKnown w maps interpreter.now Γ U context.now t → IsInterpreted w Γ U t interpreted → IsValued w Γ U t value) }
{
    match interpreted {
        Interpreted::Value(value) => Ok(value),
        Interpreted::Formula(truths) => match interpreter.omega {
            Some(omega) => {
                let numbers = truth_value_table(
                    alloc,
                    interpreter.site.cat(),
                    omega,
                    interpreter.stages,
                    interpreter.store,
                    context.place,
                    context.tuples(),
                    &truths,
                )?;
                Ok(Valued {
                    ty: Ty::Omega,
                    numbers,
                })
            }
            None => unreachable!(),
        },
    }
}
