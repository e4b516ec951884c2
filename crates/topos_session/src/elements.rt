// The elements of a type, and those that satisfy a formula, as presheaves.
ghost use Rattle.std.specs.Prelude.{◌≡◌, ◌^◌, ◌<◌, ◌≤◌, true, [], ◌∷◌, length, IfOk, IfErr, OnErr, OnOk};
ghost use Rattle.topos_model.specs.declared.stmt.Stmt.TheVariants as statement;
ghost use Rattle.topos_model.specs.declared.ty.Ty.{Base};
ghost use Rattle.topos_model.specs.declared.answer.Answer.TheVariants.{Built};
ghost use Rattle.topos_model.specs.Laws.{IsFunctor};
ghost use Rattle.topos_model.specs.statements.Needs.{parts};
ghost use Rattle.topos_model.specs.statements.Answers.{shape_of};
ghost use Rattle.term_ranges.specs.Ranges.{is_type_in_range, is_term_in_range};
ghost use Rattle.sealed_world.specs.SealedWorlds.{world_cells, HasTypes};
ghost use Rattle.formula_answers.specs.Formulas.{world_of, IsFormulaOver};
ghost use Rattle.topos_session.specs.Declarations.{AreLawful, IsKept, with_functor};
ghost use Rattle.topos_session.specs.Elements.{type_elements, type_maps, part_elements, part_maps, AreElements, IsUnstored};
ghost use Rattle.topos_session.specs.Statements.{IsTypeSealed, IsTypeUnsealed, IsAnsweredOver, IsStoppedOver};

use crate::Stop;
use crate::declarations::Declarations;
use crate::formulas::{seal_formula, seal_types};
use crate::shapes::{elements_shape, numbers_shape, shape};
use crate::term_maps::one_variable;
use presheaf_core::Functor;
use std::alloc::Global;
use term_objects::{identity_rows, subobject, type_presheaf, type_values};
use topos_model::{Answer, Copied, Fault, MapShape, MapTable, MapTy, NoMemory, Row, Term, Ty};

/// A presheaf of numbers of elements with its maps: by their tables, and as they are shown.
#[derive(Drop)]
pub struct Numbered {
    pub functor: Functor,
    pub tables: Row<MapTable>,
    pub shapes: Row<MapShape>,
}

// Seals a type with its parts, where none of the presheaves that it names is no sheaf and they are within the budget.
fn seal_type(alloc: Global, so: &mut Declarations, under: u32, ty: &Ty) -> Result<(), Stop>
    requires range { is_type_in_range (length so.old.world.functors) ty.now ≡ true }
    requires few { length so.old.world.functors < 2 ^ 32 }
    ensures sealed { OnOk result (IsTypeSealed under ty.now so.old so.new) }
    ensures stop { IfErr result (λ stop. IsTypeUnsealed under ty.now so.old stop) }
    ensures unchanged { OnErr result (IsKept so.old so.new) }
{
    if under != 0 {
        return Err(Stop::Refused(Fault::NotBuilt));
    }
    let one = one_variable(alloc, ty)?;
    seal_types(alloc, so, one.types.as_slice())
}

// The map from numbers to elements, by its table.
fn to_elements(
    alloc: Global,
    functor: u32,
    ty: &Ty,
    rows: Row<Row<u32>>,
) -> Result<MapTable, NoMemory>
    ensures { IfOk result (λ table. table ≡ record { ends = record { dom = Base functor; cod = ty.now }; rows = rows }) }
{
    let ends = MapTy {
        dom: Ty::Base(functor),
        cod: ty.copy(alloc)?,
    };
    Ok(MapTable { ends, rows })
}

// The map from elements to numbers, by its table.
fn to_numbers(
    alloc: Global,
    functor: u32,
    ty: &Ty,
    rows: Row<Row<u32>>,
) -> Result<MapTable, NoMemory>
    ensures { IfOk result (λ table. table ≡ record { ends = record { dom = ty.now; cod = Base functor }; rows = rows }) }
{
    let ends = MapTy {
        dom: ty.copy(alloc)?,
        cod: Ty::Base(functor),
    };
    Ok(MapTable { ends, rows })
}

// The elements of a sealed type, to be declared next, with the maps both ways.
fn type_elements(
    alloc: Global,
    so: &Declarations,
    functor: u32,
    ty: &Ty,
) -> Result<Numbered, NoMemory>
    requires lawful { AreLawful so.now.world.site.category so.now }
    requires next { functor ≡ length so.now.world.functors }
    requires range { is_type_in_range (length so.now.world.functors) ty.now ≡ true }
    requires counted { HasTypes (parts ty.now) so.now.world }
    ensures elements { IfOk result (AreElements so.now (type_elements (world_of so.now.world so.now.maps) ty.now) (type_maps (world_of so.now.world so.now.maps) functor ty.now)) }
    ensures maps { IfOk result (λ made. length made.tables ≡ 2) }
{
    so.cat().laws();
    let made = type_presheaf(alloc, &so.world, ty)?;
    let numbers = identity_rows(alloc, &made)?;
    let back = identity_rows(alloc, &made)?;
    let values = type_values(alloc, &so.world, ty, numbers.as_slice())?;
    let mut shapes = Row::new(alloc);
    shapes.push(numbers_shape(alloc, functor, ty, values.as_slice())?)?;
    shapes.push(elements_shape(alloc, functor, ty, values.as_slice())?)?;
    let mut tables = Row::new(alloc);
    tables.push(to_elements(alloc, functor, ty, numbers)?)?;
    tables.push(to_numbers(alloc, functor, ty, back)?)?;
    Ok(Numbered {
        functor: made,
        tables,
        shapes,
    })
}

// The elements of a sealed type that satisfy a formula, to be declared next, with the inclusion.
fn part_elements(
    alloc: Global,
    so: &Declarations,
    functor: u32,
    ty: &Ty,
    phi: &Term,
) -> Result<Numbered, NoMemory>
    requires lawful { AreLawful so.now.world.site.category so.now }
    requires next { functor ≡ length so.now.world.functors }
    requires range { is_type_in_range (length so.now.world.functors) ty.now ≡ true }
    requires formula { IsFormulaOver so.now.world so.now.maps (ty.now ∷ []) phi.now }
    ensures elements { IfOk result (AreElements so.now (part_elements (world_of so.now.world so.now.maps) ty.now phi.now) (part_maps (world_of so.now.world so.now.maps) functor ty.now phi.now)) }
    ensures map { IfOk result (λ made. length made.tables ≡ 1) }
{
    so.cat().laws();
    let made = subobject(alloc, &so.world, so.maps.tables(), ty, phi)?;
    let values = type_values(alloc, &so.world, ty, made.inclusion.as_slice())?;
    let mut shapes = Row::new(alloc);
    shapes.push(numbers_shape(alloc, functor, ty, values.as_slice())?)?;
    let mut tables = Row::new(alloc);
    tables.push(to_elements(alloc, functor, ty, made.inclusion)?)?;
    Ok(Numbered {
        functor: made.functor,
        tables,
        shapes,
    })
}

// Declares a presheaf with its maps, and shows it.
fn declare_numbered(alloc: Global, so: &mut Declarations, made: Numbered) -> Result<Answer, Stop>
    requires functor { IsFunctor so.old.world.site.category made.functor }
    requires few { length so.old.world.functors < 2 ^ 32 }
    ensures shown { IfOk result (λ answer. answer ≡ Built (shape_of so.old.world.site.category made.functor) made.shapes) }
    ensures declared { OnOk result (so.new ≡ with_functor so.old made.functor made.tables) }
    ensures within { OnOk result (world_cells so.new.world ≤ so.new.world.budget) }
    ensures stop { IfErr result (IsUnstored so.old made.functor) }
    ensures unchanged { OnErr result (so.new ≡ so.old) }
{
    let functor = shape(alloc, so.cat(), &made.functor)?;
    so.declare(alloc, made.functor, made.tables)?;
    let _room = so.world.room();
    Ok(Answer::Built {
        functor,
        maps: made.shapes,
    })
}

/// Declares the elements of a type by their numbers, the next presheaf, with the maps from numbers to elements and back.
pub(crate) fn declare_type(
    alloc: Global,
    so: &mut Declarations,
    under: u32,
    functor: u32,
    ty: &Ty,
    maps: (u32, u32),
) -> Result<Answer, Stop>
    requires lawful { AreLawful so.old.world.site.category so.old }
    requires next { functor ≡ length so.old.world.functors }
    requires range { is_type_in_range (length so.old.world.functors) ty.now ≡ true }
    requires few { length so.old.world.functors < 2 ^ 32 }
    ensures answer { IfOk result (λ answer. IsAnsweredOver so.old.world.site.category so.old (statement.Build under functor ty.now maps.0 maps.1) answer so.new) }
    ensures stop { IfErr result (IsStoppedOver so.old.world.site.category so.old (statement.Build under functor ty.now maps.0 maps.1)) }
    ensures unchanged { OnErr result (IsKept so.old so.new) }
{
    let _ = maps;
    seal_type(alloc, so, under, ty)?;
    let made = type_elements(alloc, so, functor, ty)?;
    declare_numbered(alloc, so, made)
}

/// Declares the elements of a type that satisfy a formula by their numbers, the next presheaf, with the inclusion.
pub(crate) fn declare_part(
    alloc: Global,
    so: &mut Declarations,
    under: u32,
    functor: u32,
    ty: &Ty,
    phi: &Term,
    map: u32,
) -> Result<Answer, Stop>
    requires lawful { AreLawful so.old.world.site.category so.old }
    requires next { functor ≡ length so.old.world.functors }
    requires type_range { is_type_in_range (length so.old.world.functors) ty.now ≡ true }
    requires range { is_term_in_range (length so.old.world.functors) (length so.old.maps) phi.now ≡ true }
    requires few { length so.old.world.functors < 2 ^ 32 }
    ensures answer { IfOk result (λ answer. IsAnsweredOver so.old.world.site.category so.old (statement.Sub under functor ty.now phi.now map) answer so.new) }
    ensures stop { IfErr result (IsStoppedOver so.old.world.site.category so.old (statement.Sub under functor ty.now phi.now map)) }
    ensures unchanged { OnErr result (IsKept so.old so.new) }
{
    let _ = map;
    let one = one_variable(alloc, ty)?;
    seal_formula(alloc, so, under, &one, phi)?;
    let made = part_elements(alloc, so, functor, ty, phi)?;
    declare_numbered(alloc, so, made)
}
