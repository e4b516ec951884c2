// The sections of a presheaf.
ghost use Rattle.std.specs.Prelude.{◌≡◌, [], ◌∷◌, ◌++◌, Ok, map, length, unwrap_or, OnOk, IfOk, IfErr};
ghost use Rattle.std.specs.Option.{option_copied};
ghost use Rattle.topos_text.specs.Tokens.{written};
ghost use Rattle.topos_text.specs.Names as space;
ghost use Rattle.topos_text.specs.Names.{change_by, look_up};
ghost use Rattle.topos_text.specs.StatementNames as spec;
ghost use Rattle.topos_text.specs.Trees.{At, Along};
ghost use Rattle.topos_text.specs.Views.{entry_of, section_of};
ghost use Rattle.topos_names.specs.Parts.{sections, presheaf_of};
ghost use Rattle.topos_names.specs.Spaces.{space_of, limits};
ghost use Rattle.topos_names.specs.Stops.{Stops};

use crate::NameStop;
use crate::limit::one_more;
use crate::names::Names;
use crate::numbers::Numbers;
use crate::space::Space;
use crate::stages::{Listed, Stages};
use crate::stop::name_unknown;
use std::alloc::Global;
use topos_model::{Kind, RawAlong, RawFunctor, Row};
use topos_text::{EntryTree, SectionTree, Written};

// The elements at each object that has some, the restrictions, and the arrows of these.
#[derive(Drop)]
pub(crate) struct Sections<'a> {
    at: Listed<'a>,
    along: Row<RawAlong>,
    arrows: Numbers,
}

// Puts an element last.
#[tactic(auto, unfolding(topos_text::specs::StatementNames::with_element))]
fn add_element<'a>(alloc: Global, names: &mut Names<'a>, x: &Written<'a>) -> Result<(), NameStop>
    ensures ok { (s : space.Space) → OnOk result (spec.with_element limits s names.old (written x.now) ≡ Ok names.new) }
    ensures fault { (s : space.Space) → IfErr result (λ stop. Stops (spec.with_element limits s names.old (written x.now)) stop) }
{
    one_more(Kind::Elements, u64::from(names.len()))?;
    names.add(alloc, x)?;
    Ok(())
}

// The elements at an object.
fn elements_of<'a>(alloc: Global, xs: &[Written<'a>]) -> Result<Names<'a>, NameStop>
    ensures ok { (s : space.Space) → IfOk result (λ found. change_by (spec.with_element limits s) [] (map written xs.now) ≡ Ok found) }
    ensures fault { (s : space.Space) → IfErr result (λ stop. Stops (change_by (spec.with_element limits s) [] (map written xs.now)) stop) }
{
    let mut names = Names::new(alloc);
    for x in xs {
        add_element(alloc, &mut names, x)?;
    }
    Ok(names)
}

// The number of an element.
pub(crate) fn element(
    alloc: Global,
    names: Option<&Names<'_>>,
    x: &Written<'_>,
) -> Result<u32, NameStop>
    ensures ok { IfOk result (λ number. look_up (unwrap_or (option_copied names.entry) []) (written x.now) ≡ Ok number) }
    ensures fault { IfErr result (λ stop. Stops (look_up (unwrap_or (option_copied names.entry) []) (written x.now)) stop) }
{
    match names {
        Some(names) => names.number(alloc, x),
        None => Err(name_unknown(alloc, x)),
    }
}

// Puts a restriction last. Each element has one.
#[tactic(auto, unfolding(topos_text::specs::StatementNames::with_entry))]
fn add_entry(
    alloc: Global,
    cod: Option<&Names<'_>>,
    dom: Option<&Names<'_>>,
    entries: &mut Row<(u32, u32)>,
    seen: &mut Numbers,
    e: &EntryTree<'_>,
) -> Result<(), NameStop>
    requires seen { seen.old ≡ map (λ p. p.0) entries.old }
    ensures ok { (s : space.Space) → OnOk result (spec.with_entry limits s (unwrap_or (option_copied cod.entry) []) (unwrap_or (option_copied dom.entry) []) entries.old (entry_of e.now) ≡ Ok entries.new) }
    ensures seen { OnOk result (seen.new ≡ map (λ p. p.0) entries.new) }
    ensures fault { (s : space.Space) → IfErr result (λ stop. Stops (spec.with_entry limits s (unwrap_or (option_copied cod.entry) []) (unwrap_or (option_copied dom.entry) []) entries.old (entry_of e.now)) stop) }
{
    let from = element(alloc, cod, &e.from)?;
    seen.add(alloc, from, &e.from)?;
    let to = element(alloc, dom, &e.to)?;
    entries.push((from, to))?;
    Ok(())
}

// The restrictions along an arrow, from the elements at its codomain to those at its domain.
fn entries_of(
    alloc: Global,
    cod: Option<&Names<'_>>,
    dom: Option<&Names<'_>>,
    es: &[EntryTree<'_>],
) -> Result<Row<(u32, u32)>, NameStop>
    ensures ok { (s : space.Space) → IfOk result (λ entries. change_by (spec.with_entry limits s (unwrap_or (option_copied cod.entry) []) (unwrap_or (option_copied dom.entry) [])) [] (map entry_of es.now) ≡ Ok entries) }
    ensures fault { (s : space.Space) → IfErr result (λ stop. Stops (change_by (spec.with_entry limits s (unwrap_or (option_copied cod.entry) []) (unwrap_or (option_copied dom.entry) [])) [] (map entry_of es.now)) stop) }
{
    let mut entries = Row::new(alloc);
    let mut seen = Numbers::new(alloc);
    for e in es {
        add_entry(alloc, cod, dom, &mut entries, &mut seen, e)?;
    }
    Ok(entries)
}

// The restrictions from the elements at the second object to those at the first.
fn entries_between(
    alloc: Global,
    at: &Listed<'_>,
    ends: (u32, u32),
    es: &[EntryTree<'_>],
) -> Result<Row<(u32, u32)>, NameStop>
    ensures ok { (s : space.Space) → IfOk result (λ entries. change_by (spec.with_entry limits s (spec.elements_at at.now ends.1) (spec.elements_at at.now ends.0)) [] (map entry_of es.now) ≡ Ok entries) }
    ensures fault { (s : space.Space) → IfErr result (λ stop. Stops (change_by (spec.with_entry limits s (spec.elements_at at.now ends.1) (spec.elements_at at.now ends.0)) [] (map entry_of es.now)) stop) }
{
    let (dom, cod) = ends;
    entries_of(alloc, at.elements(cod), at.elements(dom), es)
}

// Puts the elements at an object last. Each object has them once.
#[tactic(auto, unfolding(topos_text::specs::StatementNames::with_section))]
fn add_at<'a>(
    alloc: Global,
    space: &Space<'a>,
    so_far: &mut Sections<'a>,
    u: &Written<'a>,
    xs: &[Written<'a>],
) -> Result<(), NameStop>
    ensures ok { OnOk result (spec.with_section limits (space_of space.now) (sections so_far.old) (At (written u.now) (map written xs.now)) ≡ Ok (sections so_far.new)) }
    ensures along { so_far.new.along ≡ so_far.old.along }
    ensures arrows { so_far.new.arrows ≡ so_far.old.arrows }
    ensures fault { IfErr result (λ stop. Stops (spec.with_section limits (space_of space.now) (sections so_far.old) (At (written u.now) (map written xs.now))) stop) }
{
    let object = space.object(alloc, u)?;
    so_far.at.is_new(alloc, object, u)?;
    let elements = elements_of(alloc, xs)?;
    so_far.at.push(object, elements)?;
    Ok(())
}

// Puts the restrictions along an arrow last. Each arrow has them once.
#[tactic(auto, unfolding(topos_text::specs::StatementNames::with_section))]
fn add_along<'a>(
    alloc: Global,
    space: &Space<'a>,
    so_far: &mut Sections<'a>,
    f: &Written<'a>,
    es: &[EntryTree<'a>],
) -> Result<(), NameStop>
    requires arrows { so_far.old.arrows ≡ map (λ a. a.arrow) so_far.old.along }
    ensures ok { OnOk result (spec.with_section limits (space_of space.now) (sections so_far.old) (Along (written f.now) (map entry_of es.now)) ≡ Ok (sections so_far.new)) }
    ensures arrows { OnOk result (so_far.new.arrows ≡ map (λ a. a.arrow) so_far.new.along) }
    ensures fault { IfErr result (λ stop. Stops (spec.with_section limits (space_of space.now) (sections so_far.old) (Along (written f.now) (map entry_of es.now))) stop) }
{
    let place = space.arrows.number(alloc, f)?;
    let arrow = space.behind_identities(place)?;
    so_far.arrows.add(alloc, arrow, f)?;
    let entries = entries_between(alloc, &so_far.at, space.ends_at(place), es)?;
    so_far.along.push(RawAlong { arrow, entries })?;
    Ok(())
}

// The sections of a presheaf on a category.
fn sections_of<'a>(
    alloc: Global,
    space: &Space<'a>,
    parts: &[SectionTree<'a>],
) -> Result<Sections<'a>, NameStop>
    ensures ok { IfOk result (λ found. spec.sections_of limits (space_of space.now) (map section_of parts.now) ≡ Ok (sections found)) }
    ensures fault { IfErr result (λ stop. Stops (spec.sections_of limits (space_of space.now) (map section_of parts.now)) stop) }
{
    let mut found = Sections {
        at: Listed::new(alloc),
        along: Row::new(alloc),
        arrows: Numbers::new(alloc),
    };
    for part in parts {
        add_section(alloc, space, &mut found, part)?;
    }
    Ok(found)
}

// Puts a section last.
fn add_section<'a>(
    alloc: Global,
    space: &Space<'a>,
    so_far: &mut Sections<'a>,
    part: &SectionTree<'a>,
) -> Result<(), NameStop>
    requires arrows { so_far.old.arrows ≡ map (λ a. a.arrow) so_far.old.along }
    ensures ok { OnOk result (spec.with_section limits (space_of space.now) (sections so_far.old) (section_of part.now) ≡ Ok (sections so_far.new)) }
    ensures arrows { OnOk result (so_far.new.arrows ≡ map (λ a. a.arrow) so_far.new.along) }
    ensures fault { IfErr result (λ stop. Stops (spec.with_section limits (space_of space.now) (sections so_far.old) (section_of part.now)) stop) }
{
    match part {
        SectionTree::At { object, elements } => add_at(alloc, space, so_far, object, elements),
        SectionTree::Along { arrow, entries } => add_along(alloc, space, so_far, arrow, entries),
    }
}

// The names of a presheaf's elements at each object of a category, and what is listed of it.
pub(crate) fn presheaf_of<'a>(
    alloc: Global,
    space: &Space<'a>,
    parts: &[SectionTree<'a>],
) -> Result<(Stages<'a>, RawFunctor), NameStop>
    ensures ok { IfOk result (λ r. presheaf_of (space_of space.now) (map section_of parts.now) ≡ Ok (r.0, r.1)) }
    ensures fault { IfErr result (λ stop. Stops (presheaf_of (space_of space.now) (map section_of parts.now)) stop) }
{
    let Sections {
        at,
        along,
        arrows: _,
    } = sections_of(alloc, space, parts)?;
    let stages = Stages::new(space.total, at);
    let sizes = stages.sizes(alloc)?;
    Ok((stages, RawFunctor { sizes, along }))
}
