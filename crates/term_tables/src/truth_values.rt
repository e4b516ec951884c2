// Truth values as formulas, and formulas as truth values.
ghost use Rattle.std.specs.Prelude.{◌≡◌, ◌<◌, ◌^◌, ℕ, List, [], length, get_or, IfOk};
ghost use Rattle.finite_lists.specs.Members.{In};
ghost use Rattle.topos_model.specs.declared.ty.Ty.{Ty, Omega as OmegaType};
ghost use Rattle.topos_model.specs.declared.term.Term.{Term};
ghost use Rattle.topos_model.specs.categories.Category.{has, into};
ghost use Rattle.topos_model.specs.topologies.Cover.{Site};
ghost use Rattle.topos_model.specs.formulas.Forcing.{World, value, forces};
ghost use Rattle.fin_category.specs.ArrowSets.{arrows_in};
ghost use Rattle.functor_store.specs.Store.{functor_at, restrictions_at};
ghost use Rattle.omega_object.specs.TruthValues.{closed_sieves, sieve_at, IsNumber};
ghost use Rattle.omega_object.specs.Tables.{IsOmegaOn};
ghost use Rattle.truth_tables.specs.Tables.{number};
ghost use Rattle.truth_tables.specs.Standing.{IsNumberTable, IsTruthTable};
ghost use Rattle.term_tables.specs.TruthValues.{true_arrows, IsTruthValue, AreRead, IsReadAlong};
ghost use Rattle.term_tables.specs.Parts.{AreTruthValues, AreForced};

use fin_category::{ArrowMask, Cat};
use functor_store::{FunctorId, FunctorStore};
use omega_object::Omega;
use site_stages::Stages;
use std::alloc::Global;
use topos_model::{NoMemory, Row};
use truth_tables::{Numbers, Truths, bit, number, row_at, table};

// Whether the truth value at a tuple holds.
fn holds_at(omega: &Omega, numbers: &Numbers, c: u32, i: u32) -> bool
    requires { IsTruthValue omega.now numbers.now c i }
    ensures { (s : Site) → IsOmegaOn s omega.now → result ≡ has c (sieve_at s c (number numbers.now c i)) }
{
    omega.holds(c, number(numbers, c, i))
}

/// Where a term of truth values is forced: where its value holds the identity.
pub fn formula_table(
    alloc: Global,
    omega: &Omega,
    sizes: &[u32],
    numbers: &Numbers,
) -> Result<Truths, NoMemory>
    requires objects { length sizes.now < 2 ^ 32 }
    requires part { (w : World) × (Γ : List Ty) × (t : Term) × AreTruthValues w Γ t omega.now sizes.now numbers.now }
    ensures stands { IfOk result (λ truths. (w : World) (Γ : List Ty) (t : Term) → AreTruthValues w Γ t omega.now sizes.now numbers.now → IsTruthTable w Γ (forces w t) truths) }
{
    table(
        alloc,
        sizes,
        |c, i|
            requires { IsTruthValue omega.now numbers.now c i }
            ensures { (s : Site) → IsOmegaOn s omega.entry.now → result ≡ has c (sieve_at s c (number numbers.entry.now c i)) }
        { holds_at(omega, numbers, c, i) },
    )
}

// The arrows, given with their sources and the restrictions of a tuple along them, along which a table is true.
fn true_arrows(arrows: &[u32], sources: &[u32], restrictions: &[u32], truths: &Truths) -> ArrowMask
    requires restrictions { length restrictions.now ≡ length arrows.now }
    requires read { AreRead truths.now sources.now restrictions.now arrows.now }
    ensures { arrows_in result ≡ true_arrows truths.now sources.now restrictions.now arrows.now }
{
    let mut mask = ArrowMask::empty();
    'places: for j in 0..arrows.len() {
        if bit(truths, sources[j], restrictions[j]) {
            mask.insert(arrows[j]);
        }
    }
    mask
}

// The number of the closed sieve of the arrows along which a table is true at a tuple.
fn truth_value_at(
    cat: &Cat,
    omega: &Omega,
    store: &FunctorStore,
    context: FunctorId,
    sources: &[Row<u32>],
    truths: &Truths,
    c: u32,
    i: u32,
) -> u32
    requires { IsReadAlong cat.now omega.now store.now context sources.now truths.now c i }
    ensures { let S = true_arrows truths.now (get_or sources.now c []) (restrictions_at (functor_at store.now.sealed context) c i) (into cat.now c) in (s : Site) → IsOmegaOn s omega.now → In (closed_sieves s c) S → IsNumber s c result S }
{
    let sieve = true_arrows(
        cat.arrows_into(c),
        row_at(sources, c),
        store.restrictions(context, c, i),
        truths,
    );
    omega.number(c, sieve)
}

/// The table of a formula as a term of truth values: the closed sieve of the arrows along which it is forced.
pub fn truth_value_table(
    alloc: Global,
    cat: &Cat,
    omega: &Omega,
    stages: &Stages,
    store: &FunctorStore,
    context: FunctorId,
    sizes: &[u32],
    truths: &Truths,
) -> Result<Numbers, NoMemory>
    requires objects { length sizes.now < 2 ^ 32 }
    requires part { (w : World) × (Γ : List Ty) × (φ : Term) × AreForced w Γ φ cat.now omega.now stages.now store.now context sizes.now truths.now }
    ensures stands { IfOk result (λ numbers. (w : World) (Γ : List Ty) (φ : Term) → AreForced w Γ φ cat.now omega.now stages.now store.now context sizes.now truths.now → IsNumberTable w Γ OmegaType (value w φ) numbers) }
{
    let sources = stages.sources.as_slice();
    table(
        alloc,
        sizes,
        |c, i|
            requires { IsReadAlong cat.now omega.now store.now context sources.now truths.now c i }
            ensures { let S = true_arrows truths.entry.now (get_or sources.entry.now c []) (restrictions_at (functor_at store.entry.now.sealed context) c i) (into cat.entry.now c) in (s : Site) → IsOmegaOn s omega.entry.now → In (closed_sieves s c) S → IsNumber s c result S }
        { truth_value_at(cat, omega, store, context, sources, truths, c, i) },
    )
}
