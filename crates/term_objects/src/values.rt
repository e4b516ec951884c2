// Elements of sealed types as values.
ghost use Rattle.std.specs.Prelude.{◌≡◌, ◌<◌, ℕ, List, [], length, get_or, map, IfOk};
ghost use Rattle.finite_lists.specs.Members.{In};
ghost use Rattle.topos_model.specs.declared.ty.Ty.{Base};
ghost use Rattle.topos_model.specs.declared.value.Val.{Star};
ghost use Rattle.topos_model.specs.types.Types.{Presheaf, elements};
ghost use Rattle.topos_model.specs.statements.Needs.{parts};
ghost use Rattle.truth_tables.specs.Tables.{row};
ghost use Rattle.element_values.specs.Known.{IsElement, Knows};
ghost use Rattle.sealed_world.specs.SealedWorlds.{HasTypes};

use element_values::{Elements, element_value};
use sealed_world::SealedWorld;
use std::alloc::Global;
use topos_model::{NoMemory, Row, Ty, Val};

// The elements at an object with these numbers.
fn values_at(
    alloc: Global,
    source: &Elements<'_>,
    ty: &Ty,
    c: u32,
    numbers: &[u32],
) -> Result<Row<Val>, NoMemory>
    requires known { (functors : List Presheaf) × ((x : ℕ) → In numbers.now x → IsElement source.now functors ty.now c x) }
    ensures { IfOk result (λ values. (functors : List Presheaf) → Knows source.now functors → values ≡ map (λ x. get_or (elements source.now.site.now functors ty.now c) x Star) numbers.now) }
{
    let mut values = Row::new(alloc);
    for x in numbers {
        values.push(element_value(alloc, source, ty, c, *x)?)?;
    }
    Ok(values)
}

/// The elements with these numbers at each object, of a type that is sealed with its parts.
pub fn type_values(
    alloc: Global,
    world: &SealedWorld,
    ty: &Ty,
    numbers: &[Row<u32>],
) -> Result<Row<Row<Val>>, NoMemory>
    requires named { (n : ℕ) → In (parts ty.now) (Base n) → n < length world.now.functors }
    requires counted { HasTypes (parts ty.now) world.now }
    requires objects { length numbers.now ≡ world.now.site.category.objects }
    requires elements { (c x : ℕ) → c < length numbers.now → In (get_or numbers.now c []) x → x < length (elements world.now.site world.now.functors ty.now c) }
    ensures values { IfOk result (λ values. values ≡ row (length numbers.now) (λ c. map (λ x. get_or (elements world.now.site world.now.functors ty.now c) x Star) (get_or numbers.now c []))) }
{
    let site = world.site();
    let objects = site.cat().objects();
    let source = Elements {
        site,
        store: world.store(),
        omega: world.truth_values(),
    };
    let mut values = Row::new(alloc);
    for c in 0..objects {
        values.push(values_at(alloc, &source, ty, c, numbers[c as usize].as_slice())?)?;
    }
    Ok(values)
}
