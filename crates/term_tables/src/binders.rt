// Functions and comprehension: terms that bind a variable.
ghost use Rattle.std.specs.Prelude.{◌≡◌, ◌<◌, ◌^◌, List, length, IfOk};
ghost use Rattle.topos_model.specs.declared.ty.Ty.{Ty, Pow, Fun};
ghost use Rattle.topos_model.specs.declared.term.Term.{Term, Lam, Compr};
ghost use Rattle.topos_model.specs.formulas.Forcing.{World, value};
ghost use Rattle.truth_tables.specs.Standing.{IsNumberTable};
ghost use Rattle.term_tables.specs.Parts.{IsFunctionBody, IsSubsetBody};

use functor_store::{FunctorId, FunctorStore};
use site_stages::Stages;
use std::alloc::Global;
use topos_model::NoMemory;
use truth_tables::{Numbers, Truths, abstractions, indicators};

/// The table of the function that a term with one more variable defines, of which the type `id` is sealed. The widths are the numbers of the variable's values at each
/// object.
pub fn function_table(
    alloc: Global,
    stages: &Stages,
    store: &FunctorStore,
    context: FunctorId,
    id: FunctorId,
    sizes: &[u32],
    widths: &[u32],
    body: &Numbers,
) -> Result<Numbers, NoMemory>
    requires objects { length sizes.now < 2 ^ 32 }
    requires part { (w : World) × (Γ : List Ty) × (S T : Ty) × (t : Term) × IsFunctionBody w Γ S T t stages.now store.now context id sizes.now widths.now body.now }
    ensures stands { IfOk result (λ numbers. (w : World) (Γ : List Ty) (S T : Ty) (t : Term) → IsFunctionBody w Γ S T t stages.now store.now context id sizes.now widths.now body.now → IsNumberTable w Γ (Fun S T) (value w (Lam S t)) numbers) }
{
    abstractions(
        alloc,
        store,
        context,
        id,
        sizes,
        stages.sources.as_slice(),
        widths,
        body,
    )
}

/// The table of the subset that a formula with one more variable defines, of which the power `id` is sealed. The inner sizes are those of the context with that variable.
pub fn comprehension_table(
    alloc: Global,
    stages: &Stages,
    store: &FunctorStore,
    context: FunctorId,
    id: FunctorId,
    sizes: &[u32],
    inner: &[u32],
    widths: &[u32],
    body: &Truths,
) -> Result<Numbers, NoMemory>
    requires objects { length sizes.now < 2 ^ 32 }
    requires part { (w : World) × (Γ : List Ty) × (T : Ty) × (φ : Term) × IsSubsetBody w Γ T φ stages.now store.now context id sizes.now inner.now widths.now body.now }
    ensures stands { IfOk result (λ numbers. (w : World) (Γ : List Ty) (T : Ty) (φ : Term) → IsSubsetBody w Γ T φ stages.now store.now context id sizes.now inner.now widths.now body.now → IsNumberTable w Γ (Pow T) (value w (Compr T φ)) numbers) }
{
    let digits = indicators(alloc, inner, body)?;
    abstractions(
        alloc,
        store,
        context,
        id,
        sizes,
        stages.sources.as_slice(),
        widths,
        &digits,
    )
}
