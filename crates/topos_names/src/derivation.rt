// Derivations by numbers.
ghost use Rattle.std.specs.Prelude.{◌≡◌, map, Ok, List, OnOk, IfOk, IfErr};
ghost use Rattle.std.specs.Option.{option_map};
ghost use Rattle.topos_text.specs.Tokens.{written};
ghost use Rattle.topos_text.specs.Trees as tree;
ghost use Rattle.topos_text.specs.Names.{for_each};
ghost use Rattle.topos_text.specs.TermNames as names;
ghost use Rattle.topos_text.specs.StatementNames as spec;
ghost use Rattle.topos_text.specs.Views as view;
ghost use Rattle.topos_names.specs.Spaces.{limits};
ghost use Rattle.topos_names.specs.Stops.{Stops};

use crate::NameStop;
use crate::context::context_of;
use crate::scope::Scope;
use crate::stop::name_of;
use crate::terms::term_of;
use crate::variables::Variables;
use std::alloc::Global;
use topos_model::{Ctx, Derivation, NoMemory, Row, Step, Stmt, Term};
use topos_text::{PlaceTree, StepTree, TermTree, Written};

// The terms of trees, in the scope of the variables.
fn terms_of<'a>(
    alloc: Global,
    scope: &Scope<'a>,
    variables: &mut Variables<'a>,
    trees: &[Box<TermTree<'a>>],
) -> Result<Row<Term>, NameStop>
    ensures ok { IfOk result (λ terms. for_each (names.term_of scope.now variables.old) (map (λ t. view.term_of t.value) trees.now) ≡ Ok terms) }
    ensures same { OnOk result (variables.new ≡ variables.old) }
    ensures fault { IfErr result (λ s. Stops (for_each (names.term_of scope.now variables.old) (map (λ t. view.term_of t.value) trees.now)) s) }
{
    let mut terms = Row::new(alloc);
    for tree in trees {
        let term = term_of(alloc, scope, variables, tree)?;
        terms.push(term.into_inner())?;
    }
    Ok(terms)
}

// The term of a tree, where there is one.
fn with_term_of<'a>(
    alloc: Global,
    scope: &Scope<'a>,
    variables: &mut Variables<'a>,
    with_term: &Option<Box<TermTree<'a>>>,
) -> Result<Option<Term>, NameStop>
    ensures ok { (bs : List tree.Binding) → variables.old ≡ names.variables bs → IfOk result (λ term. spec.with_term_of scope.now bs (option_map (λ t. view.term_of t.value) with_term.now) ≡ Ok term) }
    ensures fault { (bs : List tree.Binding) → variables.old ≡ names.variables bs → IfErr result (λ s. Stops (spec.with_term_of scope.now bs (option_map (λ t. view.term_of t.value) with_term.now)) s) }
{
    match with_term {
        None => Ok(None),
        Some(tree) => {
            let term = term_of(alloc, scope, variables, tree)?;
            Ok(Some(term.into_inner()))
        }
    }
}

// The numbers of places.
fn numbers_of(alloc: Global, places: &[PlaceTree<'_>]) -> Result<Row<u32>, NoMemory>
    ensures { IfOk result (λ numbers. numbers ≡ map (λ p. p.number) (map view.place_of places.now)) }
{
    let mut numbers = Row::new(alloc);
    for place in places {
        numbers.push(place.number)?;
    }
    Ok(numbers)
}

// A step.
#[tactic(auto, unfolding(topos_text::specs::StatementNames::step_of))]
fn step_of<'a>(alloc: Global, scope: &Scope<'a>, tree: &StepTree<'a>) -> Result<Step, NameStop>
    ensures ok { IfOk result (λ step. spec.step_of scope.now (view.step_of tree.now) ≡ Ok step) }
    ensures fault { IfErr result (λ s. Stops (spec.step_of scope.now (view.step_of tree.now)) s) }
{
    let (types, mut variables) = context_of(alloc, scope, &tree.context)?;
    let hyps = terms_of(alloc, scope, &mut variables, &tree.hypotheses)?;
    let concl = term_of(alloc, scope, &mut variables, &tree.conclusion)?;
    let with_term = with_term_of(alloc, scope, &mut variables, &tree.with_term)?;
    let rule = name_of(alloc, tree.rule.text)?;
    let from = numbers_of(alloc, &tree.from)?;
    Ok(Step {
        rule,
        from,
        ctx: Ctx { types },
        hyps,
        concl: concl.into_inner(),
        with_term,
    })
}

// The steps of a derivation.
fn steps_of<'a>(
    alloc: Global,
    scope: &Scope<'a>,
    trees: &[StepTree<'a>],
) -> Result<Row<Step>, NameStop>
    ensures ok { IfOk result (λ steps. for_each (spec.step_of scope.now) (map view.step_of trees.now) ≡ Ok steps) }
    ensures fault { IfErr result (λ s. Stops (for_each (spec.step_of scope.now) (map view.step_of trees.now)) s) }
{
    let mut steps = Row::new(alloc);
    for tree in trees {
        steps.push(step_of(alloc, scope, tree)?)?;
    }
    Ok(steps)
}

// A derivation.
#[tactic(auto, unfolding(topos_text::specs::StatementNames::statement_of))]
pub(crate) fn derive<'a>(
    alloc: Global,
    scope: &Scope<'a>,
    under: &Option<Written<'a>>,
    steps: &[StepTree<'a>],
) -> Result<Stmt, NameStop>
    ensures ok { IfOk result (λ stmt. spec.statement_of limits scope.now (tree.Derive (option_map written under.now) (map view.step_of steps.now)) ≡ Ok (scope.now, stmt)) }
    ensures fault { IfErr result (λ s. Stops (spec.statement_of limits scope.now (tree.Derive (option_map written under.now) (map view.step_of steps.now))) s) }
{
    let under = scope.under(alloc, under)?;
    let steps = steps_of(alloc, scope, steps)?;
    Ok(Stmt::Derive {
        under,
        d: Derivation { steps },
    })
}
