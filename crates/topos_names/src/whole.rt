// A whole document by numbers.
ghost use Rattle.std.specs.Prelude.{◌≡◌, ◌+◌, [], ◌∷◌, map, length, Ok, IfOk, IfErr};
ghost use Rattle.topos_text.specs.Trees as tree;
ghost use Rattle.topos_text.specs.Resolving as spec;
ghost use Rattle.topos_text.specs.Views as view;
ghost use Rattle.topos_names.specs.Spaces.{space_of, limits};
ghost use Rattle.topos_names.specs.Stops.{Stops};
ghost use Rattle.topos_text.specs.Resolving.{document_with};
ghost use Rattle.topos_names.specs.declared.stop.NameStop.TheVariants.{NoMemory as no_memory};
ghost use Rattle.topos_names.specs.DocumentParts.{in_scope, behind, first_behind, second_behind};

use crate::NameStop;
use crate::in_turn::{site_of, statements_of};
use crate::names::Names;
use crate::scope::Scope;
use crate::space::Space;
use crate::topologies::{only_topology, topologies_of};
use std::alloc::Global;
use topos_model::{Doc, NoMemory, Row, Stmt, TopDecl};
use topos_text::{CoversTree, DocumentTree, SiteTree, StatementTree, TopologyTree};

/// The document of a syntax tree within the limits of a text: names become numbers, in the order of the tokens. Where a limit is passed, a name stands twice or a name
/// is unknown, the first of these is the fault. Want of memory may come before it.
pub fn document(alloc: Global, tree: &DocumentTree<'_>) -> Result<Box<Doc>, NameStop>
    ensures ok { IfOk result (λ doc. spec.resolved limits (view.document_of tree.now) ≡ Ok doc.value) }
    ensures fault { IfErr result (λ s. Stops (spec.resolved limits (view.document_of tree.now)) s) }
{
    match tree {
        DocumentTree::FirstVersion {
            site,
            covers,
            statements,
        } => first_version(alloc, site, covers, statements),
        DocumentTree::SecondVersion {
            site,
            topologies,
            statements,
        } => second_version(alloc, site, topologies, statements),
    }
}

// So many, where they fit 32 bits. No text has more.
fn count(behind: u32, more: usize) -> Result<u32, NoMemory>
    ensures { IfOk result (λ count. count ≡ behind + more) }
{
    match u32::try_from(more) {
        Ok(more) => behind.checked_add(more).ok_or(NoMemory),
        Err(_) => Err(NoMemory),
    }
}

// How many statements the covers are.
fn covers_len(covers: &CoversTree<'_>) -> usize
    ensures { result ≡ spec.covers_len limits (view.covers_of covers.now) }
{
    match covers {
        CoversTree::Dense => 1,
        CoversTree::Listed(covers) => covers.len(),
    }
}

// A document in a box: it is large where it lies by value.
fn boxed(alloc: Global, doc: Doc) -> Result<Box<Doc>, NameStop>
    ensures ok { IfOk result (λ boxed. boxed.value ≡ doc) }
    ensures fault { IfErr result (λ stop. stop ≡ no_memory) }
{
    match Box::new(alloc, doc) {
        Ok(boxed) => Ok(boxed),
        Err(_) => Err(NameStop::NoMemory),
    }
}

// The document of a scope, with statements and topologies.
fn scope_document(
    alloc: Global,
    version: u32,
    site_len: u32,
    scope: &Scope<'_>,
    stmts: Row<Stmt>,
    tops: Row<TopDecl>,
) -> Result<Box<Doc>, NameStop>
    ensures ok { IfOk result (λ doc. doc.value ≡ document_with limits version site_len (scope.now, stmts) tops) }
    ensures fault { IfErr result (λ stop. stop ≡ no_memory) }
{
    match scope.document(alloc, version, site_len, stmts, tops) {
        Ok(doc) => boxed(alloc, doc),
        Err(_) => Err(NameStop::NoMemory),
    }
}

// The statements that may name what is in a scope, of which there are so many before them.
fn in_scope<'a>(
    alloc: Global,
    version: u32,
    before: u32,
    scope: &mut Scope<'a>,
    tops: Row<TopDecl>,
    trees: &[StatementTree<'a>],
) -> Result<Box<Doc>, NameStop>
    ensures ok { IfOk result (λ doc. in_scope version before scope.old tops (map view.statement_of trees.now) ≡ Ok doc.value) }
    ensures fault { IfErr result (λ s. Stops (in_scope version before scope.old tops (map view.statement_of trees.now)) s) }
{
    match statements_of(alloc, before, scope, trees) {
        Ok(stmts) => scope_document(alloc, version, before, scope, stmts, tops),
        Err(stop) => Err(stop),
    }
}

// The statements behind a site and its topologies, of which there are so many before them.
fn with_statements<'a>(
    alloc: Global,
    version: u32,
    before: u32,
    space: Space<'a>,
    names: Names<'a>,
    tops: Row<TopDecl>,
    trees: &[StatementTree<'a>],
) -> Result<Box<Doc>, NameStop>
    ensures ok { IfOk result (λ doc. behind version before (space_of space.entry) names.entry tops (map view.statement_of trees.now) ≡ Ok doc.value) }
    ensures fault { IfErr result (λ s. Stops (behind version before (space_of space.entry) names.entry tops (map view.statement_of trees.now)) s) }
{
    let mut scope = Scope::first(alloc, space, names)?;
    in_scope(alloc, version, before, &mut scope, tops, trees)
}

// The only topology.
fn one_topology(alloc: Global, top: TopDecl) -> Result<Row<TopDecl>, NoMemory>
    ensures { IfOk result (λ tops. tops ≡ top ∷ []) }
{
    let mut tops = Row::new(alloc);
    tops.push(top)?;
    Ok(tops)
}

// The covers and the statements behind the site of a document of the first version.
fn behind_first_site<'a>(
    alloc: Global,
    site_len: u32,
    space: Space<'a>,
    covers: &CoversTree<'a>,
    statements: &[StatementTree<'a>],
) -> Result<Box<Doc>, NameStop>
    ensures ok { IfOk result (λ doc. first_behind site_len (space_of space.entry) (view.covers_of covers.now) (map view.statement_of statements.now) ≡ Ok doc.value) }
    ensures fault { IfErr result (λ s. Stops (first_behind site_len (space_of space.entry) (view.covers_of covers.now) (map view.statement_of statements.now)) s) }
{
    let top = only_topology(alloc, site_len, &space, covers)?;
    let tops = one_topology(alloc, top)?;
    let before = count(site_len, covers_len(covers))?;
    with_statements(alloc, 1, before, space, Names::new(alloc), tops, statements)
}

// The topologies and the statements behind the site of a document of the second version.
fn behind_second_site<'a>(
    alloc: Global,
    site_len: u32,
    space: Space<'a>,
    topologies: &[TopologyTree<'a>],
    statements: &[StatementTree<'a>],
) -> Result<Box<Doc>, NameStop>
    ensures ok { IfOk result (λ doc. second_behind site_len (space_of space.entry) (map view.topology_of topologies.now) (map view.statement_of statements.now) ≡ Ok doc.value) }
    ensures fault { IfErr result (λ s. Stops (second_behind site_len (space_of space.entry) (map view.topology_of topologies.now) (map view.statement_of statements.now)) s) }
{
    let (names, tops) = topologies_of(alloc, site_len, &space, topologies)?;
    let before = count(site_len, topologies.len())?;
    with_statements(alloc, 2, before, space, names, tops, statements)
}

// A document of the first version.
fn first_version<'a>(
    alloc: Global,
    site: &[SiteTree<'a>],
    covers: &CoversTree<'a>,
    statements: &[StatementTree<'a>],
) -> Result<Box<Doc>, NameStop>
    ensures ok { IfOk result (λ doc. spec.resolved limits (tree.FirstVersion (map view.site_of site.now) (view.covers_of covers.now) (map view.statement_of statements.now)) ≡ Ok doc.value) }
    ensures fault { IfErr result (λ s. Stops (spec.resolved limits (tree.FirstVersion (map view.site_of site.now) (view.covers_of covers.now) (map view.statement_of statements.now))) s) }
{
    let space = site_of(alloc, 0, site)?;
    let site_len = count(0, site.len())?;
    behind_first_site(alloc, site_len, space, covers, statements)
}

// A document of the second version.
fn second_version<'a>(
    alloc: Global,
    site: &[SiteTree<'a>],
    topologies: &[TopologyTree<'a>],
    statements: &[StatementTree<'a>],
) -> Result<Box<Doc>, NameStop>
    ensures ok { IfOk result (λ doc. spec.resolved limits (tree.SecondVersion (map view.site_of site.now) (map view.topology_of topologies.now) (map view.statement_of statements.now)) ≡ Ok doc.value) }
    ensures fault { IfErr result (λ s. Stops (spec.resolved limits (tree.SecondVersion (map view.site_of site.now) (map view.topology_of topologies.now) (map view.statement_of statements.now))) s) }
{
    let space = site_of(alloc, 1, site)?;
    let site_len = count(1, site.len())?;
    behind_second_site(alloc, site_len, space, topologies, statements)
}
