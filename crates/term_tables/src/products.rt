// The empty tuple, pairs and projections.
ghost use Rattle.std.specs.Prelude.{◌≡◌, ◌<◌, ◌^◌, List, length, IfOk};
ghost use Rattle.topos_model.specs.declared.ty.Ty.{Ty, One as OneType, Two};
ghost use Rattle.topos_model.specs.declared.term.Term.{Term, Star, Pair, Fst, Snd};
ghost use Rattle.topos_model.specs.formulas.Forcing.{World, value};
ghost use Rattle.truth_tables.specs.Standing.{counts, IsNumberTable};
ghost use Rattle.term_tables.specs.Parts.{ArePairParts, IsPairTable};

use functor_store::FunctorStore;
use std::alloc::Global;
use topos_model::NoMemory;
use truth_tables::{Numbers, first_parts, pairs, second_parts, table};

/// The table of the empty tuple.
pub fn star_table(alloc: Global, sizes: &[u32]) -> Result<Numbers, NoMemory>
    requires objects { length sizes.now < 2 ^ 32 }
    ensures stands { IfOk result (λ numbers. (w : World) (Γ : List Ty) → sizes.now ≡ counts w Γ → IsNumberTable w Γ OneType (value w Star) numbers) }
{
    table(alloc, sizes, |_, _| 0)
}

/// The table of the pair of two terms, whose type is sealed. The widths are the numbers of elements of the second type at each object.
pub fn pair_table(
    alloc: Global,
    store: &FunctorStore,
    sizes: &[u32],
    widths: &[u32],
    left: &Numbers,
    right: &Numbers,
) -> Result<Numbers, NoMemory>
    requires objects { length sizes.now < 2 ^ 32 }
    requires parts { (w : World) × (Γ : List Ty) × (S T : Ty) × (t u : Term) × ArePairParts w Γ S T t u store.now sizes.now widths.now left.now right.now }
    ensures stands { IfOk result (λ numbers. (w : World) (Γ : List Ty) (S T : Ty) (t u : Term) → ArePairParts w Γ S T t u store.now sizes.now widths.now left.now right.now → IsNumberTable w Γ (Two S T) (value w (Pair t u)) numbers) }
{
    // There are no more pairs than the store has cells.
    let _room = store.room();
    pairs(alloc, sizes, widths, left, right)
}

/// The table of the first part of a term of a product. The widths are the numbers of elements of the second factor at each object.
pub fn first_table(
    alloc: Global,
    sizes: &[u32],
    widths: &[u32],
    tuples: &Numbers,
) -> Result<Numbers, NoMemory>
    requires objects { length sizes.now < 2 ^ 32 }
    requires part { (w : World) × (Γ : List Ty) × (S T : Ty) × (t : Term) × IsPairTable w Γ S T t sizes.now widths.now tuples.now }
    ensures stands { IfOk result (λ numbers. (w : World) (Γ : List Ty) (S T : Ty) (t : Term) → IsPairTable w Γ S T t sizes.now widths.now tuples.now → IsNumberTable w Γ S (value w (Fst t)) numbers) }
{
    first_parts(alloc, sizes, widths, tuples)
}

/// The table of the second part.
pub fn second_table(
    alloc: Global,
    sizes: &[u32],
    widths: &[u32],
    tuples: &Numbers,
) -> Result<Numbers, NoMemory>
    requires objects { length sizes.now < 2 ^ 32 }
    requires part { (w : World) × (Γ : List Ty) × (S T : Ty) × (t : Term) × IsPairTable w Γ S T t sizes.now widths.now tuples.now }
    ensures stands { IfOk result (λ numbers. (w : World) (Γ : List Ty) (S T : Ty) (t : Term) → IsPairTable w Γ S T t sizes.now widths.now tuples.now → IsNumberTable w Γ T (value w (Snd t)) numbers) }
{
    second_parts(alloc, sizes, widths, tuples)
}
