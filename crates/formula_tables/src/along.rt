// Truth on a cover, and along all arrows.
ghost use Rattle.std.specs.Prelude.{◌<◌, ◌^◌, List, length, IfOk};
ghost use Rattle.topos_model.specs.declared.ty.Ty.{Ty};
ghost use Rattle.topos_model.specs.formulas.Forcing.{World, Property, locally, always};
ghost use Rattle.truth_tables.specs.Standing.{IsTruthTable};
ghost use Rattle.formula_tables.specs.Formulas.{IsFormula};

use functor_store::{FunctorId, FunctorStore};
use site_stages::Stages;
use std::alloc::Global;
use topos_model::NoMemory;
use truth_tables::{Truths, everywhere};

/// Where a property holds along all arrows of some cover: along those of the least one.
pub fn locally(
    alloc: Global,
    stages: &Stages,
    store: &FunctorStore,
    context: FunctorId,
    sizes: &[u32],
    truths: &Truths,
) -> Result<Truths, NoMemory>
    requires objects { length sizes.now < 2 ^ 32 }
    requires parts { (w : World) × (Γ : List Ty) × (φ : Property) × IsFormula w Γ φ stages.now store.now context sizes.now truths.now }
    ensures { IfOk result (λ truths'. (w : World) (Γ : List Ty) (φ : Property) → IsFormula w Γ φ stages.now store.now context sizes.now truths.now → IsTruthTable w Γ (locally w φ) truths') }
{
    everywhere(
        alloc,
        store,
        context,
        sizes,
        stages.sources.as_slice(),
        stages.least.as_slice(),
        truths,
    )
}

/// Where a property holds along all arrows.
pub fn always(
    alloc: Global,
    stages: &Stages,
    store: &FunctorStore,
    context: FunctorId,
    sizes: &[u32],
    truths: &Truths,
) -> Result<Truths, NoMemory>
    requires objects { length sizes.now < 2 ^ 32 }
    requires parts { (w : World) × (Γ : List Ty) × (φ : Property) × IsFormula w Γ φ stages.now store.now context sizes.now truths.now }
    ensures { IfOk result (λ truths'. (w : World) (Γ : List Ty) (φ : Property) → IsFormula w Γ φ stages.now store.now context sizes.now truths.now → IsTruthTable w Γ (always w φ) truths') }
{
    everywhere(
        alloc,
        store,
        context,
        sizes,
        stages.sources.as_slice(),
        stages.all.as_slice(),
        truths,
    )
}
