// The topologies of a document.
ghost use Rattle.std.specs.Prelude.{◌≡◌, ◌++◌, [], ◌∷◌, List, map, Ok, None, IfOk, IfErr};
ghost use Rattle.topos_model.specs.declared.doc.TopDecl as model;
ghost use Rattle.topos_text.specs.Resolving as spec;
ghost use Rattle.topos_text.specs.Views as view;
ghost use Rattle.topos_names.specs.Spaces.{space_of, limits};
ghost use Rattle.topos_names.specs.Stops.{Stops};

use crate::NameStop;
use crate::cover::{cover_of, covers_of};
use crate::limit::one_more;
use crate::names::Names;
use crate::space::Space;
use crate::stop::name_of;
use std::alloc::Global;
use topos_model::{Family, Kind, Name, Row, TopDecl};
use topos_text::{CoverTree, CoversTree, TopologyTree};

// The covers of a document of the first version, each of which is a statement, behind so many statements.
fn covers_in_turn(
    alloc: Global,
    before: u32,
    space: &Space<'_>,
    trees: &[CoverTree<'_>],
) -> Result<Row<Family>, NameStop>
    ensures ok { IfOk result (λ covers. spec.in_turn limits (spec.with_cover limits (space_of space.now)) before [] (map view.cover_of trees.now) ≡ Ok covers) }
    ensures fault { IfErr result (λ s. Stops (spec.in_turn limits (spec.with_cover limits (space_of space.now)) before [] (map view.cover_of trees.now)) s) }
{
    let mut covers = Row::new(alloc);
    let mut count = u64::from(before);
    for tree in trees {
        one_more(Kind::Statements, count)?;
        covers.push(cover_of(alloc, space, tree)?)?;
        count = count.saturating_add(1);
    }
    Ok(covers)
}

// The dense topology.
fn dense(alloc: Global, name: Option<Name>) -> TopDecl
    ensures { result ≡ spec.dense_declared name }
{
    TopDecl {
        name,
        dense: true,
        covers: Row::new(alloc),
    }
}

// The topology of these covers.
fn listed(name: Option<Name>, covers: Row<Family>) -> TopDecl
    ensures { result ≡ spec.listed_declared name covers }
{
    TopDecl {
        name,
        dense: false,
        covers,
    }
}

// The topology of a document of the first version, behind so many statements.
#[tactic(auto, unfolding(topos_text::specs::Resolving::only_topology))]
pub(crate) fn only_topology(
    alloc: Global,
    before: u32,
    space: &Space<'_>,
    covers: &CoversTree<'_>,
) -> Result<TopDecl, NameStop>
    ensures ok { IfOk result (λ top. spec.only_topology limits before (space_of space.now) (view.covers_of covers.now) ≡ Ok top) }
    ensures fault { IfErr result (λ s. Stops (spec.only_topology limits before (space_of space.now) (view.covers_of covers.now)) s) }
{
    match covers {
        CoversTree::Dense => {
            one_more(Kind::Statements, u64::from(before))?;
            Ok(dense(alloc, None))
        }
        CoversTree::Listed(trees) => {
            let covers = covers_in_turn(alloc, before, space, trees)?;
            Ok(listed(None, covers))
        }
    }
}

// A topology of a document of the second version.
fn topology_of(
    alloc: Global,
    space: &Space<'_>,
    tree: &TopologyTree<'_>,
) -> Result<TopDecl, NameStop>
    ensures ok { IfOk result (λ top. spec.topology_of limits (space_of space.now) tree.now.name.text.now (view.covers_of tree.now.covers) ≡ Ok top) }
    ensures fault { IfErr result (λ s. Stops (spec.topology_of limits (space_of space.now) tree.now.name.text.now (view.covers_of tree.now.covers)) s) }
{
    let name = Some(name_of(alloc, tree.name.text)?);
    match &tree.covers {
        CoversTree::Dense => Ok(dense(alloc, name)),
        CoversTree::Listed(trees) => {
            let covers = covers_of(alloc, space, trees)?;
            Ok(listed(name, covers))
        }
    }
}

// One more topology of a document of the second version, behind those with these names.
#[tactic(auto, using(crate::proofs::NameLists::twice_fault_of_both), unfolding(topos_text::specs::Resolving::with_topology))]
fn one_more_topology<'a>(
    alloc: Global,
    space: &Space<'a>,
    names: &mut Names<'a>,
    tree: &TopologyTree<'a>,
) -> Result<TopDecl, NameStop>
    ensures ok { IfOk result (λ top. (tops : List model.TopDecl) → spec.with_topology limits (space_of space.now) (names.old, tops) (view.topology_of tree.now) ≡ Ok (names.new, tops ++ top ∷ [])) }
    ensures fault { IfErr result (λ s. (tops : List model.TopDecl) → Stops (spec.with_topology limits (space_of space.now) (names.old, tops) (view.topology_of tree.now)) s) }
{
    one_more(Kind::Topologies, u64::from(names.len()))?;
    names.add(alloc, &tree.name)?;
    space.is_new(alloc, &tree.name)?;
    topology_of(alloc, space, tree)
}

// The topologies of a document of the second version with their names, behind so many statements. The first has no name and lists no covers.
pub(crate) fn topologies_of<'a>(
    alloc: Global,
    before: u32,
    space: &Space<'a>,
    trees: &[TopologyTree<'a>],
) -> Result<(Names<'a>, Row<TopDecl>), NameStop>
    ensures ok { IfOk result (λ found. spec.in_turn limits (spec.with_topology limits (space_of space.now)) before ([], spec.listed_declared None [] ∷ []) (map view.topology_of trees.now) ≡ Ok found) }
    ensures fault { IfErr result (λ s. Stops (spec.in_turn limits (spec.with_topology limits (space_of space.now)) before ([], spec.listed_declared None [] ∷ []) (map view.topology_of trees.now)) s) }
{
    let mut names = Names::new(alloc);
    let mut tops = Row::new(alloc);
    tops.push(listed(None, Row::new(alloc)))?;
    let mut count = u64::from(before);
    for tree in trees {
        one_more(Kind::Statements, count)?;
        tops.push(one_more_topology(alloc, space, &mut names, tree)?)?;
        count = count.saturating_add(1);
    }
    Ok((names, tops))
}
