// Each form of formulas.
ghost use Rattle.std.specs.Prelude.{◌≡◌, ◌<◌, ◌^◌, true, List, length, IfOk};
ghost use Rattle.topos_model.specs.declared.ty.Ty.{Ty};
ghost use Rattle.topos_model.specs.formulas.Forcing.{World, Property, falsity_forced, not_forced};
ghost use Rattle.truth_tables.specs.Standing.{counts, IsTruthTable};
ghost use Rattle.formula_tables.specs.Formulas.{IsContext, AreFormulas, IsFormula, IsBody, connected_forced, equivalent_forced, quantified_forced};

use crate::along::{always, locally};
use functor_store::{FunctorId, FunctorStore};
use site_stages::Stages;
use std::alloc::Global;
use topos_model::NoMemory;
use truth_tables::{Connective, Quantifier, Truths, agreeing, combine, constant, quantify, table};

/// What is always forced.
pub fn truth(alloc: Global, sizes: &[u32]) -> Result<Truths, NoMemory>
    requires objects { length sizes.now < 2 ^ 32 }
    ensures { IfOk result (λ truths. (w : World) (Γ : List Ty) → sizes.now ≡ counts w Γ → IsTruthTable w Γ (λ c a. true) truths) }
{
    table(
        alloc,
        sizes,
        |_, _|
            ensures { result ≡ true }
        { true },
    )
}

/// Falsity: forced where the empty sieve covers.
pub fn falsity(
    alloc: Global,
    stages: &Stages,
    store: &FunctorStore,
    context: FunctorId,
    sizes: &[u32],
) -> Result<Truths, NoMemory>
    requires objects { length sizes.now < 2 ^ 32 }
    requires known { (w : World) × (Γ : List Ty) × IsContext w Γ stages.now store.now context sizes.now }
    ensures { IfOk result (λ truths. (w : World) (Γ : List Ty) → IsContext w Γ stages.now store.now context sizes.now → IsTruthTable w Γ (falsity_forced w) truths) }
{
    // Of which context the tuples are is a condition alone.
    let _ = store;
    let _ = context;
    constant(alloc, sizes, stages.empty.as_slice())
}

/// Two formulas under a connective.
pub fn connect(
    alloc: Global,
    connective: Connective,
    stages: &Stages,
    store: &FunctorStore,
    context: FunctorId,
    sizes: &[u32],
    left: &Truths,
    right: &Truths,
) -> Result<Truths, NoMemory>
    requires objects { length sizes.now < 2 ^ 32 }
    requires parts { (w : World) × (Γ : List Ty) × (φ : Property) × (ψ : Property) × AreFormulas w Γ φ ψ stages.now store.now context sizes.now left.now right.now }
    ensures { IfOk result (λ truths. (w : World) (Γ : List Ty) (φ ψ : Property) → AreFormulas w Γ φ ψ stages.now store.now context sizes.now left.now right.now → IsTruthTable w Γ (connected_forced w connective φ ψ) truths) }
{
    let both = combine(alloc, connective, sizes, left, right)?;
    match connective {
        Connective::And => Ok(both),
        Connective::Or => locally(alloc, stages, store, context, sizes, &both),
        Connective::Implies => always(alloc, stages, store, context, sizes, &both),
    }
}

/// Where two formulas agree along all arrows.
pub fn equivalent(
    alloc: Global,
    stages: &Stages,
    store: &FunctorStore,
    context: FunctorId,
    sizes: &[u32],
    left: &Truths,
    right: &Truths,
) -> Result<Truths, NoMemory>
    requires objects { length sizes.now < 2 ^ 32 }
    requires parts { (w : World) × (Γ : List Ty) × (φ : Property) × (ψ : Property) × AreFormulas w Γ φ ψ stages.now store.now context sizes.now left.now right.now }
    ensures { IfOk result (λ truths. (w : World) (Γ : List Ty) (φ ψ : Property) → AreFormulas w Γ φ ψ stages.now store.now context sizes.now left.now right.now → IsTruthTable w Γ (equivalent_forced w φ ψ) truths) }
{
    let here = agreeing(alloc, sizes, left, right)?;
    always(alloc, stages, store, context, sizes, &here)
}

/// The negation of a formula.
pub fn negate(
    alloc: Global,
    stages: &Stages,
    store: &FunctorStore,
    context: FunctorId,
    sizes: &[u32],
    truths: &Truths,
) -> Result<Truths, NoMemory>
    requires objects { length sizes.now < 2 ^ 32 }
    requires parts { (w : World) × (Γ : List Ty) × (φ : Property) × IsFormula w Γ φ stages.now store.now context sizes.now truths.now }
    ensures { IfOk result (λ negated. (w : World) (Γ : List Ty) (φ : Property) → IsFormula w Γ φ stages.now store.now context sizes.now truths.now → IsTruthTable w Γ (not_forced w φ) negated) }
{
    let falsity = falsity(alloc, stages, store, context, sizes)?;
    connect(
        alloc,
        Connective::Implies,
        stages,
        store,
        context,
        sizes,
        truths,
        &falsity,
    )
}

/// A formula under a quantifier over its last variable. The widths are the numbers of the variable's values at each object.
pub fn quantified(
    alloc: Global,
    quantifier: Quantifier,
    stages: &Stages,
    store: &FunctorStore,
    context: FunctorId,
    sizes: &[u32],
    widths: &[u32],
    body: &Truths,
) -> Result<Truths, NoMemory>
    requires objects { length sizes.now < 2 ^ 32 }
    requires parts { (w : World) × (Γ : List Ty) × (T : Ty) × (φ : Property) × IsBody w Γ T φ stages.now store.now context sizes.now widths.now body.now }
    ensures { IfOk result (λ truths. (w : World) (Γ : List Ty) (T : Ty) (φ : Property) → IsBody w Γ T φ stages.now store.now context sizes.now widths.now body.now → IsTruthTable w Γ (quantified_forced w quantifier T φ) truths) }
{
    let counted = quantify(alloc, quantifier, sizes, widths, body)?;
    match quantifier {
        Quantifier::Some => locally(alloc, stages, store, context, sizes, &counted),
        Quantifier::Every => always(alloc, stages, store, context, sizes, &counted),
        Quantifier::One => always(alloc, stages, store, context, sizes, &counted),
    }
}
