// The statements of a document in turn.
ghost use Rattle.std.specs.Prelude.{◌≡◌, ◌+◌, ◌++◌, [], ◌∷◌, map, Ok, length, IfOk, OnOk, IfErr};
ghost use Rattle.topos_text.specs.Resolving as spec;
ghost use Rattle.topos_text.specs.Views as view;
ghost use Rattle.topos_names.specs.Spaces.{space_of, limits};
ghost use Rattle.topos_names.specs.Stops.{Stops};

use crate::NameStop;
use crate::limit::one_more;
use crate::scope::Scope;
use crate::space::{Space, empty_space};
use crate::statement::statement_of;
use std::alloc::Global;
use topos_model::{Kind, Row, Stmt};
use topos_text::{SiteTree, StatementTree};

// The names of the site, behind so many statements.
pub(crate) fn site_of<'a>(
    alloc: Global,
    before: u32,
    statements: &[SiteTree<'a>],
) -> Result<Space<'a>, NameStop>
    ensures ok { IfOk result (λ space. spec.site_of limits before (map view.site_of statements.now) ≡ Ok (space_of space)) }
    ensures fault { IfErr result (λ s. Stops (spec.site_of limits before (map view.site_of statements.now)) s) }
{
    let mut space = empty_space(alloc, statements)?;
    let mut count = u64::from(before);
    for statement in statements {
        one_more(Kind::Statements, count)?;
        space.take(alloc, statement)?;
        count = count.saturating_add(1);
    }
    Ok(space)
}

// The statements behind the site and its topologies, behind so many statements.
pub(crate) fn statements_of<'a>(
    alloc: Global,
    before: u32,
    scope: &mut Scope<'a>,
    trees: &[StatementTree<'a>],
) -> Result<Row<Stmt>, NameStop>
    ensures ok { IfOk result (λ stmts. spec.in_turn limits (spec.with_statement limits) before (scope.old, []) (map view.statement_of trees.now) ≡ Ok (scope.new, stmts)) }
    ensures fault { IfErr result (λ s. Stops (spec.in_turn limits (spec.with_statement limits) before (scope.old, []) (map view.statement_of trees.now)) s) }
{
    let mut stmts = Row::new(alloc);
    let mut count = u64::from(before);
    for tree in trees {
        one_more(Kind::Statements, count)?;
        stmts.push(statement_of(alloc, scope, tree)?)?;
        count = count.saturating_add(1);
    }
    Ok(stmts)
}
