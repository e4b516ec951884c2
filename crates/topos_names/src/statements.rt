// Statements behind a site, by numbers.
ghost use Rattle.std.specs.Prelude.{◌≡◌, ◌+◌, [], ◌∷◌, map, Ok, length, OnOk, IfOk, IfErr};
ghost use Rattle.std.specs.Option.{option_map};
ghost use Rattle.topos_text.specs.Tokens.{written};
ghost use Rattle.topos_text.specs.Trees as tree;
ghost use Rattle.topos_text.specs.Names as scopes;
ghost use Rattle.topos_text.specs.StatementNames as spec;
ghost use Rattle.topos_text.specs.Views as view;
ghost use Rattle.topos_names.specs.Spaces.{limits};
ghost use Rattle.topos_names.specs.Stops.{Stops};

use crate::NameStop;
use crate::context::{context_of, one_variable};
use crate::made::{declare_with_map, declare_with_maps};
use crate::mappings::entries_of;
use crate::scope::Scope;
use crate::sections::presheaf_of;
use crate::terms::term_of;
use crate::types::type_of;
use std::alloc::Global;
use topos_model::{Ctx, RawMap, Stmt, Term};
use topos_text::{
    Binding, Construction, Fork, MapAtTree, PlaceTree, Question, SectionTree, TermTree, TypeTree,
    Written,
};

// A construction of two functors or of two maps, with its two maps.
#[tactic(auto, unfolding(topos_text::specs::StatementNames::statement_of))]
pub(crate) fn construct<'a>(
    alloc: Global,
    scope: &mut Scope<'a>,
    of: Construction,
    left: &Written<'a>,
    right: &Written<'a>,
    functor: &Written<'a>,
    first: &Written<'a>,
    second: &Written<'a>,
) -> Result<Stmt, NameStop>
    ensures ok { IfOk result (λ stmt. spec.statement_of limits scope.old (tree.Construct (view.construction_of of) (written left.now) (written right.now) (written functor.now) (written first.now) (written second.now)) ≡ Ok (scope.new, stmt)) }
    ensures fault { IfErr result (λ s. Stops (spec.statement_of limits scope.old (tree.Construct (view.construction_of of) (written left.now) (written right.now) (written functor.now) (written first.now) (written second.now))) s) }
{
    let x = given(alloc, scope, of, left)?;
    let y = given(alloc, scope, of, right)?;
    let (functor, p, q) = declare_with_maps(alloc, scope, functor, first, second)?;
    Ok(constructed(of, x, y, functor, p, q))
}

// What is given to a construction.
fn given(
    alloc: Global,
    scope: &Scope<'_>,
    of: Construction,
    x: &Written<'_>,
) -> Result<u32, NameStop>
    ensures ok { IfOk result (λ number. spec.given_to scope.now (view.construction_of of) (written x.now) ≡ Ok number) }
    ensures fault { IfErr result (λ s. Stops (spec.given_to scope.now (view.construction_of of) (written x.now)) s) }
{
    match of {
        Construction::Product | Construction::Coproduct => scope.functor(alloc, x),
        Construction::Pullback | Construction::Pushout => scope.map(alloc, x),
    }
}

// The statement of a construction.
fn constructed(of: Construction, x: u32, y: u32, functor: u32, p: u32, q: u32) -> Stmt
    ensures { (s : scopes.Scope) → functor ≡ scopes.next_functor s → p ≡ scopes.next_map s → q ≡ scopes.next_map s + 1 → result ≡ spec.constructed s (view.construction_of of) x y }
{
    match of {
        Construction::Product => Stmt::Product {
            x,
            y,
            functor,
            p,
            q,
        },
        Construction::Coproduct => Stmt::Coproduct {
            x,
            y,
            functor,
            p,
            q,
        },
        Construction::Pullback => Stmt::Pullback {
            m: x,
            n: y,
            functor,
            p,
            q,
        },
        Construction::Pushout => Stmt::Pushout {
            m: x,
            n: y,
            functor,
            p,
            q,
        },
    }
}

// An equalizer or a coequalizer, with its map.
#[tactic(auto, unfolding(topos_text::specs::StatementNames::statement_of))]
pub(crate) fn fork<'a>(
    alloc: Global,
    scope: &mut Scope<'a>,
    of: Fork,
    left: &Written<'a>,
    right: &Written<'a>,
    functor: &Written<'a>,
    map: &Written<'a>,
) -> Result<Stmt, NameStop>
    ensures ok { IfOk result (λ stmt. spec.statement_of limits scope.old (tree.Forked (view.fork_of of) (written left.now) (written right.now) (written functor.now) (written map.now)) ≡ Ok (scope.new, stmt)) }
    ensures fault { IfErr result (λ s. Stops (spec.statement_of limits scope.old (tree.Forked (view.fork_of of) (written left.now) (written right.now) (written functor.now) (written map.now))) s) }
{
    let m = scope.map(alloc, left)?;
    let n = scope.map(alloc, right)?;
    let (functor, map) = declare_with_map(alloc, scope, functor, map)?;
    Ok(forked(of, m, n, functor, map))
}

// The statement of an equalizer or a coequalizer.
fn forked(of: Fork, m: u32, n: u32, functor: u32, map: u32) -> Stmt
    ensures { (s : scopes.Scope) → functor ≡ scopes.next_functor s → map ≡ scopes.next_map s → result ≡ spec.forked s (view.fork_of of) m n }
{
    match of {
        Fork::Equalizer => Stmt::Equalizer { m, n, functor, map },
        Fork::Coequalizer => Stmt::Coequalizer { m, n, functor, map },
    }
}

// An image, with the map onto it and its inclusion.
#[tactic(auto, unfolding(topos_text::specs::StatementNames::statement_of))]
pub(crate) fn image<'a>(
    alloc: Global,
    scope: &mut Scope<'a>,
    of: &Written<'a>,
    functor: &Written<'a>,
    onto: &Written<'a>,
    inclusion: &Written<'a>,
) -> Result<Stmt, NameStop>
    ensures ok { IfOk result (λ stmt. spec.statement_of limits scope.old (tree.Image (written of.now) (written functor.now) (written onto.now) (written inclusion.now)) ≡ Ok (scope.new, stmt)) }
    ensures fault { IfErr result (λ s. Stops (spec.statement_of limits scope.old (tree.Image (written of.now) (written functor.now) (written onto.now) (written inclusion.now))) s) }
{
    let m = scope.map(alloc, of)?;
    let (functor, p, q) = declare_with_maps(alloc, scope, functor, onto, inclusion)?;
    Ok(Stmt::Image { m, functor, p, q })
}

// An associated sheaf, with its unit.
#[tactic(auto, unfolding(topos_text::specs::StatementNames::statement_of))]
pub(crate) fn sheafify<'a>(
    alloc: Global,
    scope: &mut Scope<'a>,
    under: &Option<Written<'a>>,
    of: &Written<'a>,
    functor: &Written<'a>,
    unit: &Written<'a>,
) -> Result<Stmt, NameStop>
    ensures ok { IfOk result (λ stmt. spec.statement_of limits scope.old (tree.Sheafify (option_map written under.now) (written of.now) (written functor.now) (written unit.now)) ≡ Ok (scope.new, stmt)) }
    ensures fault { IfErr result (λ s. Stops (spec.statement_of limits scope.old (tree.Sheafify (option_map written under.now) (written of.now) (written functor.now) (written unit.now))) s) }
{
    let under = scope.under(alloc, under)?;
    let x = scope.functor(alloc, of)?;
    let (functor, map) = declare_with_map(alloc, scope, functor, unit)?;
    Ok(Stmt::Sheafify {
        under,
        x,
        functor,
        map,
    })
}

// Whether a functor is a sheaf.
#[tactic(auto, unfolding(topos_text::specs::StatementNames::statement_of))]
pub(crate) fn sheaf<'a>(
    alloc: Global,
    scope: &Scope<'a>,
    under: &Option<Written<'a>>,
    functor: &Written<'a>,
) -> Result<Stmt, NameStop>
    ensures ok { IfOk result (λ stmt. spec.statement_of limits scope.now (tree.Sheaf (option_map written under.now) (written functor.now)) ≡ Ok (scope.now, stmt)) }
    ensures fault { IfErr result (λ s. Stops (spec.statement_of limits scope.now (tree.Sheaf (option_map written under.now) (written functor.now))) s) }
{
    let under = scope.under(alloc, under)?;
    let x = scope.functor(alloc, functor)?;
    Ok(Stmt::Sheaf { under, x })
}

// All maps between two functors.
#[tactic(auto, unfolding(topos_text::specs::StatementNames::statement_of))]
pub(crate) fn hom<'a>(
    alloc: Global,
    scope: &Scope<'a>,
    dom: &Written<'a>,
    cod: &Written<'a>,
) -> Result<Stmt, NameStop>
    ensures ok { IfOk result (λ stmt. spec.statement_of limits scope.now (tree.Hom (written dom.now) (written cod.now)) ≡ Ok (scope.now, stmt)) }
    ensures fault { IfErr result (λ s. Stops (spec.statement_of limits scope.now (tree.Hom (written dom.now) (written cod.now))) s) }
{
    let x = scope.functor(alloc, dom)?;
    let y = scope.functor(alloc, cod)?;
    Ok(Stmt::Hom { x, y })
}

// A question about a formula.
#[tactic(auto, unfolding(topos_text::specs::StatementNames::statement_of))]
pub(crate) fn ask<'a>(
    alloc: Global,
    scope: &Scope<'a>,
    question: Question,
    under: &Option<Written<'a>>,
    context: &[Binding<'a>],
    formula: &TermTree<'a>,
) -> Result<Stmt, NameStop>
    ensures ok { IfOk result (λ stmt. spec.statement_of limits scope.now (tree.Ask (view.question_of question) (option_map written under.now) (map view.binding_of context.now) (view.term_of formula.now)) ≡ Ok (scope.now, stmt)) }
    ensures fault { IfErr result (λ s. Stops (spec.statement_of limits scope.now (tree.Ask (view.question_of question) (option_map written under.now) (map view.binding_of context.now) (view.term_of formula.now))) s) }
{
    let under = scope.under(alloc, under)?;
    let (types, mut variables) = context_of(alloc, scope, context)?;
    let phi = term_of(alloc, scope, &mut variables, formula)?;
    Ok(asked(question, under, Ctx { types }, phi.into_inner()))
}

// The statement of a question.
fn asked(question: Question, under: u32, ctx: Ctx, phi: Term) -> Stmt
    ensures { (s : scopes.Scope) → result ≡ spec.asked s (view.question_of question) under ctx phi }
{
    match question {
        Question::Show => Stmt::Show { under, ctx, phi },
        Question::Classify => Stmt::Classify { under, ctx, phi },
        Question::Valid => Stmt::Valid { under, ctx, phi },
    }
}

// A certificate for a formula at a tuple.
#[tactic(auto, unfolding(topos_text::specs::StatementNames::statement_of))]
pub(crate) fn why<'a>(
    alloc: Global,
    scope: &Scope<'a>,
    under: &Option<Written<'a>>,
    object: &Written<'a>,
    tuple: &PlaceTree<'a>,
    context: &[Binding<'a>],
    formula: &TermTree<'a>,
) -> Result<Stmt, NameStop>
    ensures ok { IfOk result (λ stmt. spec.statement_of limits scope.now (tree.Why (option_map written under.now) (written object.now) (view.place_of tuple.now) (map view.binding_of context.now) (view.term_of formula.now)) ≡ Ok (scope.now, stmt)) }
    ensures fault { IfErr result (λ s. Stops (spec.statement_of limits scope.now (tree.Why (option_map written under.now) (written object.now) (view.place_of tuple.now) (map view.binding_of context.now) (view.term_of formula.now))) s) }
{
    let under = scope.under(alloc, under)?;
    let at = scope.site().object(alloc, object)?;
    let (types, mut variables) = context_of(alloc, scope, context)?;
    let phi = term_of(alloc, scope, &mut variables, formula)?;
    Ok(Stmt::Why {
        under,
        at,
        tuple: tuple.number,
        ctx: Ctx { types },
        phi: phi.into_inner(),
    })
}

// A subfunctor by a formula, with its inclusion.
#[tactic(auto, unfolding(topos_text::specs::StatementNames::statement_of, topos_text::specs::Names::new_fault))]
pub(crate) fn sub<'a>(
    alloc: Global,
    scope: &mut Scope<'a>,
    under: &Option<Written<'a>>,
    functor: &Written<'a>,
    binding: &Binding<'a>,
    formula: &TermTree<'a>,
    inclusion: &Written<'a>,
) -> Result<Stmt, NameStop>
    ensures ok { IfOk result (λ stmt. spec.statement_of limits scope.old (tree.Sub (option_map written under.now) (written functor.now) (view.binding_of binding.now) (view.term_of formula.now) (written inclusion.now)) ≡ Ok (scope.new, stmt)) }
    ensures fault { IfErr result (λ s. Stops (spec.statement_of limits scope.old (tree.Sub (option_map written under.now) (written functor.now) (view.binding_of binding.now) (view.term_of formula.now) (written inclusion.now))) s) }
{
    let under = scope.under(alloc, under)?;
    scope.is_new(alloc, functor)?;
    let ty = type_of(alloc, scope, &binding.ty)?;
    let mut variables = one_variable(alloc, binding)?;
    let phi = term_of(alloc, scope, &mut variables, formula)?;
    let (functor, map) = declare_with_map(alloc, scope, functor, inclusion)?;
    Ok(Stmt::Sub {
        under,
        functor,
        ty,
        phi: phi.into_inner(),
        map,
    })
}

// A map by a term.
#[tactic(auto, unfolding(topos_text::specs::StatementNames::statement_of, topos_text::specs::Names::new_fault))]
pub(crate) fn let_map<'a>(
    alloc: Global,
    scope: &mut Scope<'a>,
    under: &Option<Written<'a>>,
    map: &Written<'a>,
    binding: &Binding<'a>,
    term: &TermTree<'a>,
) -> Result<Stmt, NameStop>
    ensures ok { IfOk result (λ stmt. spec.statement_of limits scope.old (tree.Let (option_map written under.now) (written map.now) (view.binding_of binding.now) (view.term_of term.now)) ≡ Ok (scope.new, stmt)) }
    ensures fault { IfErr result (λ s. Stops (spec.statement_of limits scope.old (tree.Let (option_map written under.now) (written map.now) (view.binding_of binding.now) (view.term_of term.now))) s) }
{
    let under = scope.under(alloc, under)?;
    scope.is_new(alloc, map)?;
    let ty = type_of(alloc, scope, &binding.ty)?;
    let mut variables = one_variable(alloc, binding)?;
    let term = term_of(alloc, scope, &mut variables, term)?;
    let map = scope.declare_map(alloc, map)?;
    Ok(Stmt::Let {
        under,
        map,
        ty,
        term: term.into_inner(),
    })
}

// The functor of a type, with the maps between them.
#[tactic(auto, unfolding(topos_text::specs::StatementNames::statement_of, topos_text::specs::Names::new_fault))]
pub(crate) fn build<'a>(
    alloc: Global,
    scope: &mut Scope<'a>,
    under: &Option<Written<'a>>,
    functor: &Written<'a>,
    ty: &TypeTree<'a>,
    into: &Written<'a>,
    out_of: &Written<'a>,
) -> Result<Stmt, NameStop>
    ensures ok { IfOk result (λ stmt. spec.statement_of limits scope.old (tree.Build (option_map written under.now) (written functor.now) (view.type_of ty.now) (written into.now) (written out_of.now)) ≡ Ok (scope.new, stmt)) }
    ensures fault { IfErr result (λ s. Stops (spec.statement_of limits scope.old (tree.Build (option_map written under.now) (written functor.now) (view.type_of ty.now) (written into.now) (written out_of.now))) s) }
{
    let under = scope.under(alloc, under)?;
    scope.is_new(alloc, functor)?;
    let ty = type_of(alloc, scope, ty)?;
    let (functor, u, v) = declare_with_maps(alloc, scope, functor, into, out_of)?;
    Ok(Stmt::Build {
        under,
        functor,
        ty,
        u,
        v,
    })
}

// The initial functor.
#[tactic(auto, unfolding(topos_text::specs::StatementNames::statement_of, topos_text::specs::Names::new_fault))]
pub(crate) fn empty<'a>(
    alloc: Global,
    scope: &mut Scope<'a>,
    functor: &Written<'a>,
) -> Result<Stmt, NameStop>
    ensures ok { IfOk result (λ stmt. spec.statement_of limits scope.old (tree.Empty (written functor.now)) ≡ Ok (scope.new, stmt)) }
    ensures fault { IfErr result (λ s. Stops (spec.statement_of limits scope.old (tree.Empty (written functor.now))) s) }
{
    let functor = scope.declare_functor(alloc, functor, None)?;
    Ok(Stmt::Empty { functor })
}

// Whether a map is a local operator.
#[tactic(auto, unfolding(topos_text::specs::StatementNames::statement_of))]
pub(crate) fn local<'a>(
    alloc: Global,
    scope: &Scope<'a>,
    map: &Written<'a>,
) -> Result<Stmt, NameStop>
    ensures ok { IfOk result (λ stmt. spec.statement_of limits scope.now (tree.Local (written map.now)) ≡ Ok (scope.now, stmt)) }
    ensures fault { IfErr result (λ s. Stops (spec.statement_of limits scope.now (tree.Local (written map.now))) s) }
{
    let m = scope.map(alloc, map)?;
    Ok(Stmt::Local { m })
}

// The local operator of a topology.
#[tactic(auto, unfolding(topos_text::specs::StatementNames::statement_of, topos_text::specs::Names::new_fault))]
pub(crate) fn local_as<'a>(
    alloc: Global,
    scope: &mut Scope<'a>,
    topology: &Written<'a>,
    map: &Written<'a>,
) -> Result<Stmt, NameStop>
    ensures ok { IfOk result (λ stmt. spec.statement_of limits scope.old (tree.LocalAs (written topology.now) (written map.now)) ≡ Ok (scope.new, stmt)) }
    ensures fault { IfErr result (λ s. Stops (spec.statement_of limits scope.old (tree.LocalAs (written topology.now) (written map.now))) s) }
{
    let top = scope.topology(alloc, topology)?;
    let map = scope.declare_map(alloc, map)?;
    Ok(Stmt::LocalAs { top, map })
}

// A presheaf by its elements and restrictions.
#[tactic(auto, unfolding(topos_text::specs::StatementNames::statement_of, topos_text::specs::Names::new_fault))]
pub(crate) fn presheaf<'a>(
    alloc: Global,
    scope: &mut Scope<'a>,
    name: &Written<'a>,
    sections: &[SectionTree<'a>],
) -> Result<Stmt, NameStop>
    ensures ok { IfOk result (λ stmt. spec.statement_of limits scope.old (tree.Presheaf (written name.now) (map view.section_of sections.now)) ≡ Ok (scope.new, stmt)) }
    ensures fault { IfErr result (λ s. Stops (spec.statement_of limits scope.old (tree.Presheaf (written name.now) (map view.section_of sections.now))) s) }
{
    scope.is_new(alloc, name)?;
    let (stages, raw) = presheaf_of(alloc, scope.site(), sections)?;
    let functor = scope.declare_functor(alloc, name, Some(stages))?;
    Ok(Stmt::Presheaf { functor, raw })
}

// A map by its entries.
#[tactic(auto, unfolding(topos_text::specs::StatementNames::statement_of, topos_text::specs::Names::new_fault))]
pub(crate) fn map<'a>(
    alloc: Global,
    scope: &mut Scope<'a>,
    name: &Written<'a>,
    dom: &Written<'a>,
    cod: &Written<'a>,
    parts: &[MapAtTree<'a>],
) -> Result<Stmt, NameStop>
    ensures ok { IfOk result (λ stmt. spec.statement_of limits scope.old (tree.Map (written name.now) (written dom.now) (written cod.now) (map view.map_at_of parts.now)) ≡ Ok (scope.new, stmt)) }
    ensures fault { IfErr result (λ s. Stops (spec.statement_of limits scope.old (tree.Map (written name.now) (written dom.now) (written cod.now) (map view.map_at_of parts.now))) s) }
{
    scope.is_new(alloc, name)?;
    let dom = scope.functor(alloc, dom)?;
    let cod = scope.functor(alloc, cod)?;
    let (_objects, entries) = entries_of(alloc, scope, dom, cod, parts)?;
    let map = scope.declare_map(alloc, name)?;
    Ok(Stmt::Map {
        map,
        dom,
        cod,
        raw: RawMap { entries },
    })
}
