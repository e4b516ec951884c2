// What the tables of a scope come to in a document.
ghost use Rattle.std.specs.Prelude.{◌≡◌, map, IfOk};
ghost use Rattle.topos_names.specs.Scopes.{functor_name, category_name, on_name};

use crate::scope::OnFunctor;
use crate::space::Space;
use crate::stages::Stages;
use crate::stop::name_of;
use crate::table::Table;
use std::alloc::Global;
use topos_model::{CatDecl, FunctorName, Name, NoMemory, OnName, Row};

// The names of the elements, where there are some.
fn elements_of(
    alloc: Global,
    stages: &Option<Stages<'_>>,
) -> Result<Option<Row<Row<Name>>>, NoMemory>
    ensures { IfOk result (λ elements. elements ≡ stages.now) }
{
    match stages {
        Some(stages) => Ok(Some(stages.rows(alloc)?)),
        None => Ok(None),
    }
}

// The functors.
pub(crate) fn functors(
    alloc: Global,
    table: &Table<'_, Option<Stages<'_>>>,
) -> Result<Row<FunctorName>, NoMemory>
    ensures { IfOk result (λ rows. rows ≡ map functor_name table.now) }
{
    let mut rows = Row::new(alloc);
    for number in 0..table.len() {
        let (text, stages) = table.entry(number);
        let name = name_of(alloc, text)?;
        let elements = elements_of(alloc, stages)?;
        rows.push(FunctorName { name, elements })?;
    }
    Ok(rows)
}

// The second categories.
pub(crate) fn categories(
    alloc: Global,
    table: &Table<'_, Space<'_>>,
) -> Result<Row<CatDecl>, NoMemory>
    ensures { IfOk result (λ rows. rows ≡ map category_name table.now) }
{
    let mut rows = Row::new(alloc);
    for number in 0..table.len() {
        let (text, space) = table.entry(number);
        let name = name_of(alloc, text)?;
        let objects = space.objects.rows(alloc)?;
        let arrows = space.arrows.rows(alloc)?;
        let cat = space.raw(alloc)?;
        rows.push(CatDecl {
            name,
            objects,
            arrows,
            cat,
        })?;
    }
    Ok(rows)
}

// The names of the functors of categories.
pub(crate) fn category_functors(
    alloc: Global,
    table: &Table<'_, u32>,
) -> Result<Row<Name>, NoMemory>
    ensures { IfOk result (λ rows. rows ≡ map (λ f. f.0) table.now) }
{
    let mut rows = Row::new(alloc);
    for number in 0..table.len() {
        let (text, _) = table.entry(number);
        rows.push(name_of(alloc, text)?)?;
    }
    Ok(rows)
}

// The presheaves on second categories.
pub(crate) fn on_functors(
    alloc: Global,
    table: &Table<'_, OnFunctor<'_>>,
) -> Result<Row<OnName>, NoMemory>
    ensures { IfOk result (λ rows. rows ≡ map on_name table.now) }
{
    let mut rows = Row::new(alloc);
    for number in 0..table.len() {
        let (text, on) = table.entry(number);
        let name = name_of(alloc, text)?;
        let elements = elements_of(alloc, &on.elements)?;
        rows.push(OnName {
            name,
            cat: on.cat,
            elements,
        })?;
    }
    Ok(rows)
}
