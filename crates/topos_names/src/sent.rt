// Functors of categories.
ghost use Rattle.std.specs.Prelude.{◌≡◌, ◌<◌, [], ◌∷◌, map, Ok, length, OnOk, IfOk, IfErr};
ghost use Rattle.topos_text.specs.Tokens.{written};
ghost use Rattle.topos_text.specs.Trees as tree;
ghost use Rattle.topos_text.specs.Names.{change_by};
ghost use Rattle.topos_text.specs.StatementNames as spec;
ghost use Rattle.topos_text.specs.Views as view;
ghost use Rattle.topos_names.specs.Parts.{sent};
ghost use Rattle.topos_names.specs.Spaces.{space_of, limits};
ghost use Rattle.topos_names.specs.Stops.{Stops};

use crate::NameStop;
use crate::numbers::Numbers;
use crate::scope::Scope;
use crate::space::Space;
use std::alloc::Global;
use topos_model::{RawCatFunctor, Row, Stmt};
use topos_text::{ArrowTree, SentTree, Written};

// Where objects and arrows are sent so far, and which are.
#[derive(Drop)]
struct Sent {
    at: Row<(u32, u32)>,
    along: Row<(u32, u32)>,
    objects: Numbers,
    arrows: Numbers,
}

// Sends an object. Each one is sent once.
#[tactic(auto, unfolding(topos_text::specs::StatementNames::with_sent))]
fn send_object(
    alloc: Global,
    scope: &Scope<'_>,
    space: &Space<'_>,
    so_far: &mut Sent,
    object: &Written<'_>,
    to: &Written<'_>,
) -> Result<(), NameStop>
    requires objects { so_far.old.objects ≡ map (λ p. p.0) so_far.old.at }
    requires arrows { so_far.old.arrows ≡ map (λ p. p.0) so_far.old.along }
    ensures ok { OnOk result (spec.with_sent scope.now (space_of space.now) (sent so_far.old) (tree.ObjectTo (written object.now) (written to.now)) ≡ Ok (sent so_far.new)) }
    ensures objects { OnOk result (so_far.new.objects ≡ map (λ p. p.0) so_far.new.at) }
    ensures arrows { OnOk result (so_far.new.arrows ≡ map (λ p. p.0) so_far.new.along) }
    ensures fault { IfErr result (λ s. Stops (spec.with_sent scope.now (space_of space.now) (sent so_far.old) (tree.ObjectTo (written object.now) (written to.now))) s) }
{
    let from = space.object(alloc, object)?;
    so_far.objects.add(alloc, from, object)?;
    let to = scope.site().object(alloc, to)?;
    so_far.at.push((from, to))?;
    Ok(())
}

// Sends an arrow. Each one is sent once.
#[tactic(auto, unfolding(topos_text::specs::StatementNames::with_sent))]
fn send_arrow(
    alloc: Global,
    scope: &Scope<'_>,
    space: &Space<'_>,
    so_far: &mut Sent,
    arrow: &Written<'_>,
    to: &ArrowTree<'_>,
) -> Result<(), NameStop>
    requires objects { so_far.old.objects ≡ map (λ p. p.0) so_far.old.at }
    requires arrows { so_far.old.arrows ≡ map (λ p. p.0) so_far.old.along }
    ensures ok { OnOk result (spec.with_sent scope.now (space_of space.now) (sent so_far.old) (tree.ArrowTo (written arrow.now) (view.arrow_of to.now)) ≡ Ok (sent so_far.new)) }
    ensures objects { OnOk result (so_far.new.objects ≡ map (λ p. p.0) so_far.new.at) }
    ensures arrows { OnOk result (so_far.new.arrows ≡ map (λ p. p.0) so_far.new.along) }
    ensures fault { IfErr result (λ s. Stops (spec.with_sent scope.now (space_of space.now) (sent so_far.old) (tree.ArrowTo (written arrow.now) (view.arrow_of to.now))) s) }
{
    let from = space.arrow(alloc, arrow)?;
    so_far.arrows.add(alloc, from, arrow)?;
    let to = scope.site().arrow_or_identity(alloc, to)?;
    so_far.along.push((from, to))?;
    Ok(())
}

// Sends an object or an arrow.
fn send(
    alloc: Global,
    scope: &Scope<'_>,
    space: &Space<'_>,
    so_far: &mut Sent,
    part: &SentTree<'_>,
) -> Result<(), NameStop>
    requires objects { so_far.old.objects ≡ map (λ p. p.0) so_far.old.at }
    requires arrows { so_far.old.arrows ≡ map (λ p. p.0) so_far.old.along }
    ensures ok { OnOk result (spec.with_sent scope.now (space_of space.now) (sent so_far.old) (view.sent_of part.now) ≡ Ok (sent so_far.new)) }
    ensures objects { OnOk result (so_far.new.objects ≡ map (λ p. p.0) so_far.new.at) }
    ensures arrows { OnOk result (so_far.new.arrows ≡ map (λ p. p.0) so_far.new.along) }
    ensures fault { IfErr result (λ s. Stops (spec.with_sent scope.now (space_of space.now) (sent so_far.old) (view.sent_of part.now)) s) }
{
    match part {
        SentTree::ObjectTo { object, to } => send_object(alloc, scope, space, so_far, object, to),
        SentTree::ArrowTo { arrow, to } => send_arrow(alloc, scope, space, so_far, arrow, to),
    }
}

// Where the objects and arrows of a category are sent.
fn sent_of(
    alloc: Global,
    scope: &Scope<'_>,
    space: &Space<'_>,
    parts: &[SentTree<'_>],
) -> Result<RawCatFunctor, NameStop>
    ensures ok { IfOk result (λ raw. change_by (spec.with_sent scope.now (space_of space.now)) (record { at = []; along = [] }) (map view.sent_of parts.now) ≡ Ok raw) }
    ensures fault { IfErr result (λ s. Stops (change_by (spec.with_sent scope.now (space_of space.now)) (record { at = []; along = [] }) (map view.sent_of parts.now)) s) }
{
    let mut so_far = Sent {
        at: Row::new(alloc),
        along: Row::new(alloc),
        objects: Numbers::new(alloc),
        arrows: Numbers::new(alloc),
    };
    for part in parts {
        send(alloc, scope, space, &mut so_far, part)?;
    }
    Ok(RawCatFunctor {
        at: so_far.at,
        along: so_far.along,
    })
}

// A functor of categories.
#[tactic(auto, unfolding(topos_text::specs::StatementNames::statement_of, topos_text::specs::Names::new_fault))]
pub(crate) fn category_functor<'a>(
    alloc: Global,
    scope: &mut Scope<'a>,
    name: &Written<'a>,
    dom: &Written<'a>,
    parts: &[SentTree<'a>],
) -> Result<Stmt, NameStop>
    ensures ok { IfOk result (λ stmt. spec.statement_of limits scope.old (tree.CategoryFunctor (written name.now) (written dom.now) (map view.sent_of parts.now)) ≡ Ok (scope.new, stmt)) }
    ensures fault { IfErr result (λ s. Stops (spec.statement_of limits scope.old (tree.CategoryFunctor (written name.now) (written dom.now) (map view.sent_of parts.now))) s) }
{
    scope.is_new(alloc, name)?;
    let cat = scope.category(alloc, dom)?;
    let raw = sent_of(alloc, scope, scope.space(cat), parts)?;
    let f = scope.declare_category_functor(alloc, name, cat)?;
    Ok(Stmt::CatFunctor { f, cat, raw })
}
