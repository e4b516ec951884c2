// Terms by numbers.
ghost use Rattle.std.specs.Prelude.{◌≡◌, ◌∷◌, Ok, IfOk, OnOk, IfErr};
ghost use Rattle.std.specs.Option.{option_map};
ghost use Rattle.topos_text.specs.Tokens.{written};
ghost use Rattle.topos_text.specs.Trees.{Applied, Named, Bound};
ghost use Rattle.topos_text.specs.Names as scope;
ghost use Rattle.topos_text.specs.TermNames as names;
ghost use Rattle.topos_text.specs.Views as view;
ghost use Rattle.topos_names.specs.Stops.{Stops};
ghost use Rattle.topos_names.specs.Operands.{name_of, StopsBoth};

use crate::NameStop;
use crate::scope::Scope;
use crate::types::type_of;
use crate::variables::Variables;
use std::alloc::Global;
use topos_model::{Boxed, NoMemory, Term, Ty};
use topos_text::{Binder, Binding, TermTree, Written};

// The term of a tree, in the scope of the variables.
#[cycle(terms)]
#[tactic(auto, unfolding(topos_text::specs::TermNames::term_of))]
pub(crate) fn term_of<'a>(
    alloc: Global,
    scope: &Scope<'a>,
    variables: &mut Variables<'a>,
    tree: &TermTree<'a>,
) -> Result<Boxed<Term>, NameStop>
    ensures ok { IfOk result (λ term. names.term_of scope.now variables.old (view.term_of tree.now) ≡ Ok term) }
    ensures same { OnOk result (variables.new ≡ variables.old) }
    ensures fault { IfErr result (λ s. Stops (names.term_of scope.now variables.old (view.term_of tree.now)) s) }
{
    match tree {
        TermTree::Named(x) => {
            let place = variables.number(alloc, x)?;
            Ok(Boxed::new(alloc, Term::Var(place))?)
        }
        TermTree::Truth => Ok(Boxed::new(alloc, Term::Truth)?),
        TermTree::Falsity => Ok(Boxed::new(alloc, Term::Falsity)?),
        TermTree::Unit => Ok(Boxed::new(alloc, Term::Star)?),
        TermTree::Grouped(of) => term_of(alloc, scope, variables, of),
        TermTree::First(of) => {
            let of = term_of(alloc, scope, variables, of)?;
            Ok(Boxed::new(alloc, Term::Fst(of))?)
        }
        TermTree::Second(of) => {
            let of = term_of(alloc, scope, variables, of)?;
            Ok(Boxed::new(alloc, Term::Snd(of))?)
        }
        TermTree::Not(of) => {
            let of = term_of(alloc, scope, variables, of)?;
            Ok(Boxed::new(alloc, Term::Not(of))?)
        }
        TermTree::Paired(left, right) => {
            let (left, right) = both(alloc, scope, variables, left, right)?;
            Ok(Boxed::new(alloc, Term::Pair(left, right))?)
        }
        TermTree::Equal(left, right) => {
            let (left, right) = both(alloc, scope, variables, left, right)?;
            Ok(Boxed::new(alloc, Term::Eq(left, right))?)
        }
        TermTree::Member(left, right) => {
            let (left, right) = both(alloc, scope, variables, left, right)?;
            Ok(Boxed::new(alloc, Term::Member(left, right))?)
        }
        TermTree::And(left, right) => {
            let (left, right) = both(alloc, scope, variables, left, right)?;
            Ok(Boxed::new(alloc, Term::And(left, right))?)
        }
        TermTree::Or(left, right) => {
            let (left, right) = both(alloc, scope, variables, left, right)?;
            Ok(Boxed::new(alloc, Term::Or(left, right))?)
        }
        TermTree::Implies(left, right) => {
            let (left, right) = both(alloc, scope, variables, left, right)?;
            Ok(Boxed::new(alloc, Term::Implies(left, right))?)
        }
        TermTree::Applied(head, argument) => match name(head) {
            Some(x) => called(alloc, scope, variables, x, argument),
            None => {
                let (head, argument) = both(alloc, scope, variables, head, argument)?;
                Ok(Boxed::new(alloc, Term::Eval(head, argument))?)
            }
        },
        TermTree::Subset(binding, formula) => {
            let (ty, body) = body_of(alloc, scope, variables, binding, formula)?;
            Ok(Boxed::new(alloc, Term::Compr(ty, body))?)
        }
        TermTree::Bound(binder, binding, body) => {
            let (ty, body) = body_of(alloc, scope, variables, binding, body)?;
            Ok(bound(alloc, *binder, ty, body)?)
        }
    }
}

// Two terms, the first one first.
#[cycle(terms)]
fn both<'a>(
    alloc: Global,
    scope: &Scope<'a>,
    variables: &mut Variables<'a>,
    left: &TermTree<'a>,
    right: &TermTree<'a>,
) -> Result<(Boxed<Term>, Boxed<Term>), NameStop>
    ensures left { IfOk result (λ r. names.term_of scope.now variables.old (view.term_of left.now) ≡ Ok r.0) }
    ensures right { IfOk result (λ r. names.term_of scope.now variables.old (view.term_of right.now) ≡ Ok r.1) }
    ensures same { OnOk result (variables.new ≡ variables.old) }
    ensures fault { IfErr result (λ s. StopsBoth (names.term_of scope.now variables.old (view.term_of left.now)) (names.term_of scope.now variables.old (view.term_of right.now)) s) }
{
    let first = term_of(alloc, scope, variables, left)?;
    let second = term_of(alloc, scope, variables, right)?;
    Ok((first, second))
}

// A variable or a map before its argument. A variable hides the map of its name.
#[cycle(terms)]
fn called<'a>(
    alloc: Global,
    scope: &Scope<'a>,
    variables: &mut Variables<'a>,
    x: &Written<'a>,
    argument: &TermTree<'a>,
) -> Result<Boxed<Term>, NameStop>
    ensures ok { IfOk result (λ term. names.term_of scope.now variables.old (Applied (Named (written x.now)) (view.term_of argument.now)) ≡ Ok term) }
    ensures same { OnOk result (variables.new ≡ variables.old) }
    ensures fault { IfErr result (λ s. Stops (names.term_of scope.now variables.old (Applied (Named (written x.now)) (view.term_of argument.now))) s) }
{
    match variables.find(x.text) {
        Some(place) => {
            let argument = term_of(alloc, scope, variables, argument)?;
            let head = Boxed::new(alloc, Term::Var(place))?;
            Ok(Boxed::new(alloc, Term::Eval(head, argument))?)
        }
        None => {
            let map = scope.map(alloc, x)?;
            let argument = term_of(alloc, scope, variables, argument)?;
            Ok(Boxed::new(alloc, Term::App(map, argument))?)
        }
    }
}

// The type of a variable, and the term that it is bound in.
#[cycle(terms)]
fn body_of<'a>(
    alloc: Global,
    scope: &Scope<'a>,
    variables: &mut Variables<'a>,
    binding: &Binding<'a>,
    body: &TermTree<'a>,
) -> Result<(Ty, Boxed<Term>), NameStop>
    ensures ty { IfOk result (λ r. names.type_of scope.now (view.type_of binding.now.ty) ≡ Ok r.0) }
    ensures body { IfOk result (λ r. names.term_of scope.now (binding.now.variable.text.now ∷ variables.old) (view.term_of body.now) ≡ Ok r.1) }
    ensures same { OnOk result (variables.new ≡ variables.old) }
    ensures fault { IfErr result (λ s. StopsBoth (names.type_of scope.now (view.type_of binding.now.ty)) (names.term_of scope.now (binding.now.variable.text.now ∷ variables.old) (view.term_of body.now)) s) }
{
    let ty = type_of(alloc, scope, &binding.ty)?;
    variables.push(binding.variable.text)?;
    let term = term_of(alloc, scope, variables, body)?;
    variables.pop();
    Ok((ty, term))
}

// The name that a term is.
fn name<'t, 'a>(tree: &'t TermTree<'a>) -> Option<&'t Written<'a>>
    ensures { option_map (λ x. written x.now) result ≡ name_of (view.term_of tree.now) }
{
    match tree {
        TermTree::Named(x) => Some(x),
        _ => None,
    }
}

// What binds the variable of a term.
fn bound(alloc: Global, binder: Binder, ty: Ty, body: Boxed<Term>) -> Result<Boxed<Term>, NoMemory>
    ensures { (s : scope.Scope) → IfOk result (λ term. term ≡ names.bound s (view.binder_of binder) ty body) }
{
    match binder {
        Binder::Forall => Boxed::new(alloc, Term::Forall(ty, body)),
        Binder::Exists => Boxed::new(alloc, Term::Exists(ty, body)),
        Binder::Unique => Boxed::new(alloc, Term::Unique(ty, body)),
        Binder::Fun => Boxed::new(alloc, Term::Lam(ty, body)),
    }
}
