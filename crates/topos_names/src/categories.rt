// Statements about second categories, by numbers.
ghost use Rattle.std.specs.Prelude.{◌≡◌, ◌++◌, [], ◌∷◌, map, None, Ok, length, OnOk, IfOk, IfErr};
ghost use Rattle.topos_text.specs.Tokens.{written};
ghost use Rattle.topos_text.specs.Trees as tree;
ghost use Rattle.topos_text.specs.Names as scopes;
ghost use Rattle.topos_text.specs.Names.{change_by};
ghost use Rattle.topos_text.specs.StatementNames as spec;
ghost use Rattle.topos_text.specs.Views as view;
ghost use Rattle.topos_names.specs.Spaces.{space_of, limits};
ghost use Rattle.topos_names.specs.Stops.{Stops, Blames};

use crate::NameStop;
use crate::scope::Scope;
use crate::sections::presheaf_of;
use crate::space::category_of;
use std::alloc::Global;
use topos_model::Stmt;
use topos_text::{Extension, SectionTree, SiteTree, Written};

// A second category.
#[tactic(auto, unfolding(topos_text::specs::StatementNames::statement_of, topos_text::specs::Names::new_fault))]
pub(crate) fn category<'a>(
    alloc: Global,
    scope: &mut Scope<'a>,
    name: &Written<'a>,
    statements: &[SiteTree<'a>],
) -> Result<Stmt, NameStop>
    ensures ok { IfOk result (λ stmt. spec.statement_of limits scope.old (tree.Category (written name.now) (map view.site_of statements.now)) ≡ Ok (scope.new, stmt)) }
    ensures fault { IfErr result (λ s. Stops (spec.statement_of limits scope.old (tree.Category (written name.now) (map view.site_of statements.now))) s) }
{
    scope.is_new(alloc, name)?;
    let space = category_of(alloc, statements)?;
    let cat = scope.declare_category(alloc, name, space)?;
    Ok(Stmt::Category { cat })
}

// A functor restricted along a functor of categories.
#[tactic(auto, unfolding(topos_text::specs::StatementNames::statement_of, topos_text::specs::Names::new_fault))]
pub(crate) fn restricted<'a>(
    alloc: Global,
    scope: &mut Scope<'a>,
    along: &Written<'a>,
    of: &Written<'a>,
    functor: &Written<'a>,
) -> Result<Stmt, NameStop>
    ensures ok { IfOk result (λ stmt. spec.statement_of limits scope.old (tree.Restricted (written along.now) (written of.now) (written functor.now)) ≡ Ok (scope.new, stmt)) }
    ensures fault { IfErr result (λ s. Stops (spec.statement_of limits scope.old (tree.Restricted (written along.now) (written of.now) (written functor.now))) s) }
{
    let f = scope.category_functor(alloc, along)?;
    let x = scope.functor(alloc, of)?;
    let cat = scope.source(f);
    let on = scope.declare_on_functor(alloc, functor, cat, None)?;
    Ok(Stmt::Along { f, x, on })
}

// A presheaf on a second category by its elements and restrictions.
#[tactic(auto, unfolding(topos_text::specs::StatementNames::statement_of, topos_text::specs::Names::new_fault))]
pub(crate) fn presheaf_on<'a>(
    alloc: Global,
    scope: &mut Scope<'a>,
    name: &Written<'a>,
    category: &Written<'a>,
    sections: &[SectionTree<'a>],
) -> Result<Stmt, NameStop>
    ensures ok { IfOk result (λ stmt. spec.statement_of limits scope.old (tree.PresheafOn (written name.now) (written category.now) (map view.section_of sections.now)) ≡ Ok (scope.new, stmt)) }
    ensures fault { IfErr result (λ s. Stops (spec.statement_of limits scope.old (tree.PresheafOn (written name.now) (written category.now) (map view.section_of sections.now))) s) }
{
    scope.is_new(alloc, name)?;
    let cat = scope.category(alloc, category)?;
    let (stages, raw) = presheaf_of(alloc, scope.space(cat), sections)?;
    let on = scope.declare_on_functor(alloc, name, cat, Some(stages))?;
    Ok(Stmt::PresheafOf { cat, on, raw })
}

// A Kan extension, with its map.
#[tactic(auto, unfolding(topos_text::specs::StatementNames::statement_of))]
pub(crate) fn extend<'a>(
    alloc: Global,
    scope: &mut Scope<'a>,
    of: Extension,
    along: &Written<'a>,
    presheaf: &Written<'a>,
    functor: &Written<'a>,
    map: &Written<'a>,
) -> Result<Stmt, NameStop>
    ensures ok { IfOk result (λ stmt. spec.statement_of limits scope.old (tree.Extended (view.extension_of of) (written along.now) (written presheaf.now) (written functor.now) (written map.now)) ≡ Ok (scope.new, stmt)) }
    ensures fault { IfErr result (λ s. Stops (spec.statement_of limits scope.old (tree.Extended (view.extension_of of) (written along.now) (written presheaf.now) (written functor.now) (written map.now))) s) }
{
    let f = scope.category_functor(alloc, along)?;
    let on = scope.on_functor(alloc, scope.source(f), presheaf)?;
    let (functor, on_map) = declare_with_on_map(alloc, scope, functor, map)?;
    Ok(extended(of, f, on, functor, on_map))
}

// Declares a functor whose elements have no names, and a map of presheaves on a second category. Gives their numbers.
fn declare_with_on_map<'a>(
    alloc: Global,
    scope: &mut Scope<'a>,
    z: &Written<'a>,
    e: &Written<'a>,
) -> Result<(u32, u32), NameStop>
    ensures ok { OnOk result (scopes.new_fault (scopes.known scope.old) (written z.now ∷ written e.now ∷ []) ≡ None) }
    ensures made { OnOk result (scope.new ≡ record (scopes.with_functor scope.old (written z.now) None) { on_maps = scope.old.on_maps ++ e.now.text.now ∷ [] }) }
    ensures functor { IfOk result (λ r. r.0 ≡ length scope.old.functors) }
    ensures map { IfOk result (λ r. r.1 ≡ length scope.old.on_maps) }
    ensures fault { IfErr result (λ s. Blames (scopes.new_fault (scopes.known scope.old) (written z.now ∷ written e.now ∷ [])) s) }
{
    let functor = scope.declare_functor(alloc, z, None)?;
    let map = scope.declare_on_map(alloc, e)?;
    Ok((functor, map))
}

// The statement of a Kan extension.
fn extended(of: Extension, f: u32, on: u32, functor: u32, on_map: u32) -> Stmt
    ensures { (s : scopes.Scope) → functor ≡ scopes.next_functor s → on_map ≡ length s.on_maps → result ≡ spec.extended s (view.extension_of of) f on }
{
    match of {
        Extension::Left => Stmt::Lan {
            f,
            on,
            functor,
            on_map,
        },
        Extension::Right => Stmt::Ran {
            f,
            on,
            functor,
            on_map,
        },
    }
}
