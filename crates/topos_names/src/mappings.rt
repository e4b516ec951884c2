// The entries of a map.
ghost use Rattle.std.specs.Prelude.{◌≡◌, ◌<◌, [], ◌∷◌, ◌++◌, Ok, map, length, unwrap_or, OnOk, IfOk, IfErr};
ghost use Rattle.std.specs.Option.{option_copied};
ghost use Rattle.topos_text.specs.Tokens.{written};
ghost use Rattle.topos_text.specs.Names as scopes;
ghost use Rattle.topos_text.specs.Names.{change_by};
ghost use Rattle.topos_text.specs.StatementNames as spec;
ghost use Rattle.topos_text.specs.Views.{element_of, mapping_of, map_at_of};
ghost use Rattle.topos_names.specs.Stops.{Stops};

use crate::NameStop;
use crate::names::Names;
use crate::numbers::Numbers;
use crate::scope::Scope;
use crate::sections::element;
use std::alloc::Global;
use topos_model::{RawEntry, Row};
use topos_text::{ElementTree, MapAtTree, MappingTree, Written};

// The number of an element by its name, or the one that is written.
#[tactic(auto, unfolding(topos_text::specs::StatementNames::element_of))]
fn number_of(alloc: Global, names: Option<&Names<'_>>, x: &ElementTree<'_>) -> Result<u32, NameStop>
    ensures ok { IfOk result (λ number. spec.element_of (unwrap_or (option_copied names.entry) []) (element_of x.now) ≡ Ok number) }
    ensures fault { IfErr result (λ stop. Stops (spec.element_of (unwrap_or (option_copied names.entry) []) (element_of x.now)) stop) }
{
    match x {
        ElementTree::ByName(x) => element(alloc, names, x),
        ElementTree::ByPlace { number, written: _ } => Ok(*number),
    }
}

// What is written for an element.
fn written_of<'t, 'a>(x: &'t ElementTree<'a>) -> &'t Written<'a>
    ensures { written result.now ≡ spec.written_of (element_of x.now) }
{
    match x {
        ElementTree::ByName(x) => x,
        ElementTree::ByPlace { number: _, written } => written,
    }
}

// Puts an entry last. Each element has one.
#[tactic(auto, unfolding(topos_text::specs::StatementNames::with_mapping))]
fn add_mapping(
    alloc: Global,
    at: u32,
    dom: Option<&Names<'_>>,
    cod: Option<&Names<'_>>,
    entries: &mut Row<RawEntry>,
    seen: &mut Numbers,
    e: &MappingTree<'_>,
) -> Result<(), NameStop>
    requires seen { seen.old ≡ map (λ r. r.from) entries.old }
    ensures ok { (s : scopes.Scope) → OnOk result (spec.with_mapping s at (unwrap_or (option_copied dom.entry) []) (unwrap_or (option_copied cod.entry) []) entries.old (mapping_of e.now) ≡ Ok entries.new) }
    ensures seen { OnOk result (seen.new ≡ map (λ r. r.from) entries.new) }
    ensures fault { (s : scopes.Scope) → IfErr result (λ stop. Stops (spec.with_mapping s at (unwrap_or (option_copied dom.entry) []) (unwrap_or (option_copied cod.entry) []) entries.old (mapping_of e.now)) stop) }
{
    let from = number_of(alloc, dom, &e.from)?;
    seen.add(alloc, from, written_of(&e.from))?;
    let to = number_of(alloc, cod, &e.to)?;
    entries.push(RawEntry { at, from, to })?;
    Ok(())
}

// The entries at an object, from the elements of the domain to those of the codomain.
fn mappings_of(
    alloc: Global,
    at: u32,
    dom: Option<&Names<'_>>,
    cod: Option<&Names<'_>>,
    es: &[MappingTree<'_>],
) -> Result<Row<RawEntry>, NameStop>
    ensures ok { (s : scopes.Scope) → IfOk result (λ entries. change_by (spec.with_mapping s at (unwrap_or (option_copied dom.entry) []) (unwrap_or (option_copied cod.entry) [])) [] (map mapping_of es.now) ≡ Ok entries) }
    ensures fault { (s : scopes.Scope) → IfErr result (λ stop. Stops (change_by (spec.with_mapping s at (unwrap_or (option_copied dom.entry) []) (unwrap_or (option_copied cod.entry) [])) [] (map mapping_of es.now)) stop) }
{
    let mut entries = Row::new(alloc);
    let mut seen = Numbers::new(alloc);
    for e in es {
        add_mapping(alloc, at, dom, cod, &mut entries, &mut seen, e)?;
    }
    Ok(entries)
}

// Puts the entries at an object last. Each object has them once.
#[tactic(auto, unfolding(topos_text::specs::StatementNames::with_map_at))]
fn add_map_at<'a>(
    alloc: Global,
    scope: &Scope<'a>,
    dom: u32,
    cod: u32,
    objects: &mut Numbers,
    entries: &mut Row<RawEntry>,
    part: &MapAtTree<'a>,
) -> Result<(), NameStop>
    requires dom { dom < length scope.now.functors }
    requires cod { cod < length scope.now.functors }
    ensures ok { OnOk result (spec.with_map_at scope.now dom cod (objects.old, entries.old) (map_at_of part.now) ≡ Ok (objects.new, entries.new)) }
    ensures fault { IfErr result (λ stop. Stops (spec.with_map_at scope.now dom cod (objects.old, entries.old) (map_at_of part.now)) stop) }
{
    let at = scope.site().object(alloc, &part.object)?;
    objects.add(alloc, at, &part.object)?;
    let from = scope.elements(dom, at);
    let to = scope.elements(cod, at);
    let more = mappings_of(alloc, at, from, to, &part.entries)?;
    entries.append(more)?;
    Ok(())
}

// The objects that a map has entries at, and the entries.
pub(crate) fn entries_of<'a>(
    alloc: Global,
    scope: &Scope<'a>,
    dom: u32,
    cod: u32,
    parts: &[MapAtTree<'a>],
) -> Result<(Numbers, Row<RawEntry>), NameStop>
    requires dom { dom < length scope.now.functors }
    requires cod { cod < length scope.now.functors }
    ensures ok { IfOk result (λ r. change_by (spec.with_map_at scope.now dom cod) ([], []) (map map_at_of parts.now) ≡ Ok (r.0, r.1)) }
    ensures fault { IfErr result (λ stop. Stops (change_by (spec.with_map_at scope.now dom cod) ([], []) (map map_at_of parts.now)) stop) }
{
    let mut objects = Numbers::new(alloc);
    let mut entries = Row::new(alloc);
    for part in parts {
        add_map_at(alloc, scope, dom, cod, &mut objects, &mut entries, part)?;
    }
    Ok((objects, entries))
}
