// A statement behind a site, by numbers.
ghost use Rattle.std.specs.Prelude.{◌≡◌, Ok, IfOk, IfErr};
ghost use Rattle.topos_text.specs.StatementNames as spec;
ghost use Rattle.topos_text.specs.Views as view;
ghost use Rattle.topos_names.specs.Spaces.{limits};
ghost use Rattle.topos_names.specs.Stops.{Stops};

use crate::NameStop;
use crate::categories::{category, extend, presheaf_on, restricted};
use crate::derivation::derive;
use crate::scope::Scope;
use crate::sent::category_functor;
use crate::statements::{
    ask, build, construct, empty, fork, hom, image, let_map, local, local_as, map, presheaf, sheaf,
    sheafify, sub, why,
};
use std::alloc::Global;
use topos_model::Stmt;
use topos_text::StatementTree;

// A statement. What it declares is known behind it.
pub(crate) fn statement_of<'a>(
    alloc: Global,
    scope: &mut Scope<'a>,
    tree: &StatementTree<'a>,
) -> Result<Stmt, NameStop>
    ensures ok { IfOk result (λ stmt. spec.statement_of limits scope.old (view.statement_of tree.now) ≡ Ok (scope.new, stmt)) }
    ensures fault { IfErr result (λ s. Stops (spec.statement_of limits scope.old (view.statement_of tree.now)) s) }
{
    match tree {
        StatementTree::Presheaf { name, sections } => presheaf(alloc, scope, name, sections),
        StatementTree::Map {
            name,
            dom,
            cod,
            parts,
        } => map(alloc, scope, name, dom, cod, parts),
        StatementTree::Construct {
            of,
            left,
            right,
            functor,
            first,
            second,
        } => construct(alloc, scope, *of, left, right, functor, first, second),
        StatementTree::Forked {
            of,
            left,
            right,
            functor,
            map,
        } => fork(alloc, scope, *of, left, right, functor, map),
        StatementTree::Image {
            of,
            functor,
            onto,
            inclusion,
        } => image(alloc, scope, of, functor, onto, inclusion),
        StatementTree::Empty(functor) => empty(alloc, scope, functor),
        StatementTree::Sheafify {
            under,
            of,
            functor,
            unit,
        } => sheafify(alloc, scope, under, of, functor, unit),
        StatementTree::Sheaf { under, functor } => sheaf(alloc, scope, under, functor),
        StatementTree::Hom { dom, cod } => hom(alloc, scope, dom, cod),
        StatementTree::Build {
            under,
            functor,
            ty,
            into,
            out_of,
        } => build(alloc, scope, under, functor, ty, into, out_of),
        StatementTree::Sub {
            under,
            functor,
            binding,
            formula,
            inclusion,
        } => sub(alloc, scope, under, functor, binding, formula, inclusion),
        StatementTree::Let {
            under,
            map,
            binding,
            term,
        } => let_map(alloc, scope, under, map, binding, term),
        StatementTree::Ask {
            question,
            under,
            context,
            formula,
        } => ask(alloc, scope, *question, under, context, formula),
        StatementTree::Why {
            under,
            object,
            tuple,
            context,
            formula,
        } => why(alloc, scope, under, object, tuple, context, formula),
        StatementTree::Derive { under, steps } => derive(alloc, scope, under, steps),
        StatementTree::Local(map) => local(alloc, scope, map),
        StatementTree::LocalAs { operator, map } => local_as(alloc, scope, operator, map),
        StatementTree::Category { name, statements } => category(alloc, scope, name, statements),
        StatementTree::CategoryFunctor { name, dom, sent } => {
            category_functor(alloc, scope, name, dom, sent)
        }
        StatementTree::Restricted { along, of, functor } => {
            restricted(alloc, scope, along, of, functor)
        }
        StatementTree::PresheafOn {
            name,
            category,
            sections,
        } => presheaf_on(alloc, scope, name, category, sections),
        StatementTree::Extended {
            of,
            along,
            presheaf,
            functor,
            map,
        } => extend(alloc, scope, *of, along, presheaf, functor, map),
    }
}
