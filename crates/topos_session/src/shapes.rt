// Presheaves and maps as they are shown.
ghost use Rattle.std.specs.Prelude.{◌≡◌, map, IfOk};
ghost use Rattle.topos_model.specs.Laws.{IsFunctor};
ghost use Rattle.topos_model.specs.statements.Answers.{shape_of, map_shape, map_under, element_pairs, numbers_with, with_numbers};
ghost use Rattle.topos_session.specs.Elements.{numbers_shape, elements_shape};
ghost use Rattle.topos_session.specs.Declarations.{declared_between};
ghost use Rattle.topos_model.specs.declared.answer.Answer.TheVariants.{Built};

use crate::constructions::Construction;
use fin_category::Cat;
use presheaf_core::Functor;
use std::alloc::Global;
use topos_model::{Answer, Copied, MapShape, MapTable, MapTy, NoMemory, Row, Shape, Ty, Val};

// A copy of the numbers.
fn copied(alloc: Global, numbers: &[u32]) -> Result<Row<u32>, NoMemory>
    ensures { IfOk result (λ row. row ≡ numbers.now) }
{
    let mut row = Row::new(alloc);
    for number in numbers {
        row.push(*number)?;
    }
    Ok(row)
}

/// A presheaf as it is shown: the sizes, and the restrictions along the declared arrows.
pub(crate) fn shape(alloc: Global, cat: &Cat, functor: &Functor) -> Result<Shape, NoMemory>
    requires { IsFunctor cat.now functor.now }
    ensures { IfOk result (λ shape. shape ≡ shape_of cat.now functor.now) }
{
    let sizes = copied(alloc, functor.sizes())?;
    let mut along = Row::new(alloc);
    for f in cat.objects()..cat.arrows() {
        along.push(copied(alloc, functor.row(f))?)?;
    }
    Ok(Shape { sizes, along })
}

// Each element, by its number, with its image. So many elements that they have no numbers are want of memory.
fn pairs(alloc: Global, images: &[u32]) -> Result<Row<(Val, Val)>, NoMemory>
    ensures { IfOk result (λ pairs. pairs ≡ element_pairs images.now) }
{
    if images.len() > u32::MAX as usize {
        return Err(NoMemory);
    }
    let mut pairs = Row::new(alloc);
    for x in 0..images.len() as u32 {
        pairs.push((Val::El(x), Val::El(images[x as usize])))?;
    }
    Ok(pairs)
}

/// A map with these components as it is shown.
pub(crate) fn map_shape(
    alloc: Global,
    ends: MapTy,
    components: &[Row<u32>],
) -> Result<MapShape, NoMemory>
    ensures { IfOk result (λ shape. shape ≡ map_shape (map_under 0 ends.dom ends.cod (map element_pairs components.now))) }
{
    let mut stages = Row::new(alloc);
    for component in components {
        stages.push(pairs(alloc, component.as_slice())?)?;
    }
    Ok(MapShape { ends, stages })
}

// Maps between presheaves as they are shown.
fn map_shapes(alloc: Global, maps: &[MapTable]) -> Result<Row<MapShape>, NoMemory>
    ensures { IfOk result (λ shapes. shapes ≡ map (λ m. map_shape (declared_between m)) maps.now) }
{
    let mut shapes = Row::new(alloc);
    for map in maps {
        let ends = map.ends.copy(alloc)?;
        shapes.push(map_shape(alloc, ends, map.rows.as_slice())?)?;
    }
    Ok(shapes)
}

/// A construction as it is shown.
pub(crate) fn built(alloc: Global, cat: &Cat, made: &Construction) -> Result<Answer, NoMemory>
    requires functor { IsFunctor cat.now made.now.functor }
    ensures { IfOk result (λ answer. answer ≡ Built (shape_of cat.now made.now.functor) (map (λ m. map_shape (declared_between m)) made.now.maps)) }
{
    let functor = shape(alloc, cat, &made.functor)?;
    let maps = map_shapes(alloc, made.maps.as_slice())?;
    Ok(Answer::Built { functor, maps })
}

// Numbers with their values. So many values that they have no numbers are want of memory.
fn numbers_with(alloc: Global, values: &[Val]) -> Result<Row<(Val, Val)>, NoMemory>
    ensures { IfOk result (λ pairs. pairs ≡ numbers_with values.now) }
{
    if values.len() > u32::MAX as usize {
        return Err(NoMemory);
    }
    let mut pairs = Row::new(alloc);
    for n in 0..values.len() as u32 {
        pairs.push((Val::El(n), values[n as usize].copy(alloc)?))?;
    }
    Ok(pairs)
}

// Values with their numbers.
fn with_numbers(alloc: Global, values: &[Val]) -> Result<Row<(Val, Val)>, NoMemory>
    ensures { IfOk result (λ pairs. pairs ≡ with_numbers values.now) }
{
    if values.len() > u32::MAX as usize {
        return Err(NoMemory);
    }
    let mut pairs = Row::new(alloc);
    for n in 0..values.len() as u32 {
        pairs.push((values[n as usize].copy(alloc)?, Val::El(n)))?;
    }
    Ok(pairs)
}

/// The map from the numbers of the elements of a type, which are a presheaf's, to the elements, as it is shown.
pub(crate) fn numbers_shape(
    alloc: Global,
    functor: u32,
    ty: &Ty,
    values: &[Row<Val>],
) -> Result<MapShape, NoMemory>
    ensures { IfOk result (λ shape. shape ≡ numbers_shape functor ty.now values.now) }
{
    let ends = MapTy {
        dom: Ty::Base(functor),
        cod: ty.copy(alloc)?,
    };
    let mut stages = Row::new(alloc);
    for here in values {
        stages.push(numbers_with(alloc, here.as_slice())?)?;
    }
    Ok(MapShape { ends, stages })
}

/// The map from the elements to their numbers, as it is shown.
pub(crate) fn elements_shape(
    alloc: Global,
    functor: u32,
    ty: &Ty,
    values: &[Row<Val>],
) -> Result<MapShape, NoMemory>
    ensures { IfOk result (λ shape. shape ≡ elements_shape functor ty.now values.now) }
{
    let ends = MapTy {
        dom: ty.copy(alloc)?,
        cod: Ty::Base(functor),
    };
    let mut stages = Row::new(alloc);
    for here in values {
        stages.push(with_numbers(alloc, here.as_slice())?)?;
    }
    Ok(MapShape { ends, stages })
}
