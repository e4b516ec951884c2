// Covers by numbers.
ghost use Rattle.std.specs.Prelude.{◌≡◌, map, Ok, IfOk, IfErr};
ghost use Rattle.topos_text.specs.Tokens.{written};
ghost use Rattle.topos_text.specs.Names.{for_each};
ghost use Rattle.topos_text.specs.Trees as tree;
ghost use Rattle.topos_text.specs.SiteNames as spec;
ghost use Rattle.topos_text.specs.Views as view;
ghost use Rattle.topos_names.specs.Spaces.{space_of};
ghost use Rattle.topos_names.specs.Stops.{Stops};

use crate::NameStop;
use crate::space::Space;
use crate::stop::name_unknown;
use std::alloc::Global;
use topos_model::{Family, Row};
use topos_text::{ArrowTree, CoverTree, Written};

// The number of a declared arrow into an object.
#[tactic(auto, unfolding(topos_text::specs::SiteNames::arrow_into))]
fn declared_into(
    alloc: Global,
    space: &Space<'_>,
    object: u32,
    f: &Written<'_>,
) -> Result<u32, NameStop>
    ensures ok { IfOk result (λ number. spec.arrow_into (space_of space.now) object (tree.Declared (written f.now)) ≡ Ok number) }
    ensures fault { IfErr result (λ s. Stops (spec.arrow_into (space_of space.now) object (tree.Declared (written f.now))) s) }
{
    let place = space.arrows.number(alloc, f)?;
    let (_dom, cod) = space.ends_at(place);
    if cod != object {
        return Err(name_unknown(alloc, f));
    }
    Ok(space.behind_identities(place)?)
}

// The number of an object's identity, as an arrow into an object.
#[tactic(auto, unfolding(topos_text::specs::SiteNames::arrow_into))]
fn identity_into(
    alloc: Global,
    space: &Space<'_>,
    object: u32,
    x: &Written<'_>,
) -> Result<u32, NameStop>
    ensures ok { IfOk result (λ number. spec.arrow_into (space_of space.now) object (tree.Identity (written x.now)) ≡ Ok number) }
    ensures fault { IfErr result (λ s. Stops (spec.arrow_into (space_of space.now) object (tree.Identity (written x.now))) s) }
{
    let number = space.object(alloc, x)?;
    if number != object {
        return Err(name_unknown(alloc, x));
    }
    Ok(number)
}

// The number of an arrow into an object.
fn arrow_into(
    alloc: Global,
    space: &Space<'_>,
    object: u32,
    f: &ArrowTree<'_>,
) -> Result<u32, NameStop>
    ensures ok { IfOk result (λ number. spec.arrow_into (space_of space.now) object (view.arrow_of f.now) ≡ Ok number) }
    ensures fault { IfErr result (λ s. Stops (spec.arrow_into (space_of space.now) object (view.arrow_of f.now)) s) }
{
    match f {
        ArrowTree::Declared(f) => declared_into(alloc, space, object, f),
        ArrowTree::Identity(x) => identity_into(alloc, space, object, x),
    }
}

// The numbers of arrows into an object.
fn arrows_into(
    alloc: Global,
    space: &Space<'_>,
    object: u32,
    fs: &[ArrowTree<'_>],
) -> Result<Row<u32>, NameStop>
    ensures ok { IfOk result (λ arrows. for_each (spec.arrow_into (space_of space.now) object) (map view.arrow_of fs.now) ≡ Ok arrows) }
    ensures fault { IfErr result (λ s. Stops (for_each (spec.arrow_into (space_of space.now) object) (map view.arrow_of fs.now)) s) }
{
    let mut arrows = Row::new(alloc);
    for f in fs {
        arrows.push(arrow_into(alloc, space, object, f)?)?;
    }
    Ok(arrows)
}

// A cover: an object, and arrows into it.
#[tactic(auto, unfolding(topos_text::specs::SiteNames::cover_of))]
pub(crate) fn cover_of(
    alloc: Global,
    space: &Space<'_>,
    cover: &CoverTree<'_>,
) -> Result<Family, NameStop>
    ensures ok { IfOk result (λ found. spec.cover_of (space_of space.now) (view.cover_of cover.now) ≡ Ok found) }
    ensures fault { IfErr result (λ s. Stops (spec.cover_of (space_of space.now) (view.cover_of cover.now)) s) }
{
    let at = space.object(alloc, &cover.object)?;
    let arrows = arrows_into(alloc, space, at, &cover.arrows)?;
    Ok(Family { at, arrows })
}

// Covers.
pub(crate) fn covers_of(
    alloc: Global,
    space: &Space<'_>,
    trees: &[CoverTree<'_>],
) -> Result<Row<Family>, NameStop>
    ensures ok { IfOk result (λ covers. for_each (spec.cover_of (space_of space.now)) (map view.cover_of trees.now) ≡ Ok covers) }
    ensures fault { IfErr result (λ s. Stops (for_each (spec.cover_of (space_of space.now)) (map view.cover_of trees.now)) s) }
{
    let mut covers = Row::new(alloc);
    for tree in trees {
        covers.push(cover_of(alloc, space, tree)?)?;
    }
    Ok(covers)
}
