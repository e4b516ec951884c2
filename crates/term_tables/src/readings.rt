// Maps and functions at terms, equality and membership.
ghost use Rattle.std.specs.Prelude.{◌≡◌, ◌<◌, ◌^◌, ℕ, List, length, IfOk};
ghost use Rattle.topos_model.specs.declared.ty.Ty.{Ty};
ghost use Rattle.topos_model.specs.declared.term.Term.{Term, App, Eq, Eval, Member};
ghost use Rattle.topos_model.specs.formulas.Forcing.{World, value, forces};
ghost use Rattle.truth_tables.specs.Standing.{IsNumberTable, IsTruthTable};
ghost use Rattle.term_tables.specs.Parts.{AreMapParts, AreAlike, AreFunctionParts, AreMemberParts};

use functor_store::{FunctorId, FunctorStore};
use std::alloc::Global;
use topos_model::{NoMemory, Row};
use truth_tables::{Numbers, Truths, equal, images, members, values};

/// The table of a map at a term. The map is given by the number of the image of each element of its domain.
pub fn image_table(
    alloc: Global,
    sizes: &[u32],
    map: &[Row<u32>],
    arguments: &Numbers,
) -> Result<Numbers, NoMemory>
    requires objects { length sizes.now < 2 ^ 32 }
    requires parts { (w : World) × (Γ : List Ty) × (m : ℕ) × (S T : Ty) × (t : Term) × AreMapParts w Γ m S T t sizes.now map.now arguments.now }
    ensures stands { IfOk result (λ numbers. (w : World) (Γ : List Ty) (m : ℕ) (S T : Ty) (t : Term) → AreMapParts w Γ m S T t sizes.now map.now arguments.now → IsNumberTable w Γ T (value w (App m t)) numbers) }
{
    images(alloc, sizes, map, arguments)
}

/// Where two terms of one type are equal: no type has an element twice.
pub fn equal_table(
    alloc: Global,
    sizes: &[u32],
    left: &Numbers,
    right: &Numbers,
) -> Result<Truths, NoMemory>
    requires objects { length sizes.now < 2 ^ 32 }
    requires parts { (w : World) × (Γ : List Ty) × (T : Ty) × (t u : Term) × AreAlike w Γ T t u sizes.now left.now right.now }
    ensures stands { IfOk result (λ truths. (w : World) (Γ : List Ty) (T : Ty) (t u : Term) → AreAlike w Γ T t u sizes.now left.now right.now → IsTruthTable w Γ (forces w (Eq t u)) truths) }
{
    equal(alloc, sizes, left, right)
}

/// The table of a function at a term. The places at the identity stand first in a function's row, so the place of the argument is its number.
pub fn evaluation_table(
    alloc: Global,
    store: &FunctorStore,
    id: FunctorId,
    sizes: &[u32],
    functions: &Numbers,
    arguments: &Numbers,
) -> Result<Numbers, NoMemory>
    requires objects { length sizes.now < 2 ^ 32 }
    requires parts { (w : World) × (Γ : List Ty) × (S T : Ty) × (t u : Term) × AreFunctionParts w Γ S T t u store.now id sizes.now functions.now arguments.now }
    ensures stands { IfOk result (λ numbers. (w : World) (Γ : List Ty) (S T : Ty) (t u : Term) → AreFunctionParts w Γ S T t u store.now id sizes.now functions.now arguments.now → IsNumberTable w Γ T (value w (Eval t u)) numbers) }
{
    values(alloc, store, id, sizes, functions, arguments)
}

/// Where a term is a member of another.
pub fn membership_table(
    alloc: Global,
    store: &FunctorStore,
    id: FunctorId,
    sizes: &[u32],
    elements: &Numbers,
    subsets: &Numbers,
) -> Result<Truths, NoMemory>
    requires objects { length sizes.now < 2 ^ 32 }
    requires parts { (w : World) × (Γ : List Ty) × (T : Ty) × (t u : Term) × AreMemberParts w Γ T t u store.now id sizes.now elements.now subsets.now }
    ensures stands { IfOk result (λ truths. (w : World) (Γ : List Ty) (T : Ty) (t u : Term) → AreMemberParts w Γ T t u store.now id sizes.now elements.now subsets.now → IsTruthTable w Γ (forces w (Member t u)) truths) }
{
    members(alloc, store, id, sizes, subsets, elements)
}
