// The names of a category.
ghost use Rattle.std.specs.Prelude.{◌≡◌, ◌+◌, ◌<◌, ◌^◌, [], ◌∷◌, ◌++◌, None, Ok, length, map, replicate, OnOk, IfOk, IfErr};
ghost use Rattle.topos_text.specs.Tokens.{written};
ghost use Rattle.topos_text.specs.Names.{change_by, twice_fault, names_of};
ghost use Rattle.topos_text.specs.SiteNames as names;
ghost use Rattle.topos_text.specs.Trees.{Arrows, Composite};
ghost use Rattle.topos_text.specs.Views.{arrow_of, site_of};
ghost use Rattle.topos_names.specs.Spaces.{space_of, limits};
ghost use Rattle.topos_names.specs.Stops.{Stops, Blames};

use crate::NameStop;
use crate::limit::one_more;
use crate::names::Names;
use std::alloc::Global;
use topos_model::{Copied, Kind, NoMemory, RawCat, Row};
use topos_text::{ArrowTree, SiteTree, Written};

// The names of a category: its objects and declared arrows so far, the ends of the arrows, and the listed composites. `total` counts all its objects, also
// those that are declared later.
#[derive(Drop)]
pub(crate) struct Space<'a> {
    pub(crate) total: u32,
    pub(crate) objects: Names<'a>,
    pub(crate) arrows: Names<'a>,
    pub(crate) ends: Row<(u32, u32)>,
    pub(crate) listed: Row<(u32, u32, u32)>,
}

impl<'a> Space<'a> {
    // The number of an object.
    #[tactic(auto, unfolding(topos_text::specs::SiteNames::object_of))]
    pub(crate) fn object(&self, alloc: Global, x: &Written<'_>) -> Result<u32, NameStop>
        ensures ok { IfOk result (λ number. names.object_of (space_of self.now) (written x.now) ≡ Ok number) }
        ensures fault { IfErr result (λ s. Stops (names.object_of (space_of self.now) (written x.now)) s) }
    {
        self.objects.number(alloc, x)
    }

    // The number of a declared arrow, behind the identities.
    #[tactic(auto, unfolding(topos_text::specs::SiteNames::arrow_of))]
    pub(crate) fn arrow(&self, alloc: Global, f: &Written<'_>) -> Result<u32, NameStop>
        ensures ok { IfOk result (λ number. names.arrow_of (space_of self.now) (written f.now) ≡ Ok number) }
        ensures fault { IfErr result (λ s. Stops (names.arrow_of (space_of self.now) (written f.now)) s) }
    {
        let place = self.arrows.number(alloc, f)?;
        Ok(self.behind_identities(place)?)
    }

    // The number of the declared arrow at this place. No text has so many that it does not fit.
    pub(crate) fn behind_identities(&self, place: u32) -> Result<u32, NoMemory>
        ensures { IfOk result (λ number. number ≡ self.now.total + place) }
    {
        self.total.checked_add(place).ok_or(NoMemory)
    }

    // The ends of the declared arrow at this place.
    pub(crate) fn ends_at(&self, place: u32) -> (u32, u32)
        ensures { result ≡ names.end_of (space_of self.now) place }
    {
        let place = place as usize;
        if place < self.ends.len() {
            *self.ends.get(place)
        } else {
            (0, 0)
        }
    }

    // The number of a declared arrow or an identity.
    #[tactic(auto, unfolding(topos_text::specs::SiteNames::arrow_or_identity))]
    pub(crate) fn arrow_or_identity(
        &self,
        alloc: Global,
        f: &ArrowTree<'_>,
    ) -> Result<u32, NameStop>
        ensures ok { IfOk result (λ number. names.arrow_or_identity (space_of self.now) (arrow_of f.now) ≡ Ok number) }
        ensures fault { IfErr result (λ s. Stops (names.arrow_or_identity (space_of self.now) (arrow_of f.now)) s) }
    {
        match f {
            ArrowTree::Declared(f) => self.arrow(alloc, f),
            ArrowTree::Identity(x) => self.object(alloc, x),
        }
    }

    // The category by numbers.
    pub(crate) fn raw(&self, alloc: Global) -> Result<RawCat, NoMemory>
        ensures { IfOk result (λ cat. cat ≡ names.raw_category (space_of self.now)) }
    {
        let ends = self.ends.copy(alloc)?;
        let listed = self.listed.copy(alloc)?;
        Ok(RawCat {
            objects: self.total,
            ends,
            listed,
        })
    }

    // Whether the name is neither of an object nor of an arrow.
    #[tactic(auto, using(crate::proofs::NameLists::twice_fault_of_both))]
    pub(crate) fn is_new(&self, alloc: Global, x: &Written<'_>) -> Result<(), NameStop>
        ensures ok { OnOk result (twice_fault (names_of (space_of self.now)) (written x.now) ≡ None) }
        ensures fault { IfErr result (λ s. Blames (twice_fault (names_of (space_of self.now)) (written x.now)) s) }
    {
        self.arrows.is_new(alloc, x)?;
        self.objects.is_new(alloc, x)?;
        Ok(())
    }

    // Puts an object last. An object counts as an arrow too.
    #[tactic(auto, using(crate::proofs::NameLists::twice_fault_of_both), unfolding(topos_text::specs::SiteNames::with_object))]
    fn add_object(&mut self, alloc: Global, x: &Written<'a>) -> Result<(), NameStop>
        ensures ok { OnOk result (names.with_object limits (space_of self.old) (written x.now) ≡ Ok (space_of self.new)) }
        ensures fault { IfErr result (λ s. Stops (names.with_object limits (space_of self.old) (written x.now)) s) }
    {
        one_more(Kind::Objects, u64::from(self.objects.len()))?;
        one_more(
            Kind::Arrows,
            u64::from(self.objects.len()) + u64::from(self.arrows.len()),
        )?;
        self.is_new(alloc, x)?;
        self.objects.add(alloc, x)?;
        Ok(())
    }

    // Puts an arrow last.
    #[tactic(auto, using(crate::proofs::NameLists::twice_fault_of_both), unfolding(topos_text::specs::SiteNames::with_arrow))]
    fn add_arrow(&mut self, alloc: Global, f: &Written<'a>) -> Result<(), NameStop>
        ensures ok { OnOk result (names.with_arrow limits (space_of self.old) (written f.now) ≡ Ok (space_of self.new)) }
        ensures objects { self.new.objects ≡ self.old.objects }
        ensures fault { IfErr result (λ s. Stops (names.with_arrow limits (space_of self.old) (written f.now)) s) }
    {
        one_more(
            Kind::Arrows,
            u64::from(self.objects.len()) + u64::from(self.arrows.len()),
        )?;
        self.is_new(alloc, f)?;
        self.arrows.add(alloc, f)?;
        Ok(())
    }

    // Puts objects last.
    fn add_objects(&mut self, alloc: Global, xs: &[Written<'a>]) -> Result<(), NameStop>
        ensures ok { OnOk result (change_by (names.with_object limits) (space_of self.old) (map written xs.now) ≡ Ok (space_of self.new)) }
        ensures fault { IfErr result (λ s. Stops (change_by (names.with_object limits) (space_of self.old) (map written xs.now)) s) }
    {
        for x in xs {
            self.add_object(alloc, x)?;
        }
        Ok(())
    }

    // Puts arrows last.
    fn add_arrows(&mut self, alloc: Global, fs: &[Written<'a>]) -> Result<(), NameStop>
        ensures ok { OnOk result (change_by (names.with_arrow limits) (space_of self.old) (map written fs.now) ≡ Ok (space_of self.new)) }
        ensures objects { self.new.objects ≡ self.old.objects }
        ensures fault { IfErr result (λ s. Stops (change_by (names.with_arrow limits) (space_of self.old) (map written fs.now)) s) }
    {
        for f in fs {
            self.add_arrow(alloc, f)?;
        }
        Ok(())
    }

    // Gives so many arrows their ends.
    fn add_ends(&mut self, count: usize, dom: u32, cod: u32) -> Result<(), NoMemory>
        ensures { OnOk result (space_of self.new ≡ record (space_of self.old) { ends = self.old.ends ++ replicate count (dom, cod) }) }
    {
        for _ in 0..count {
            self.ends.push((dom, cod))?;
        }
        Ok(())
    }

    // Takes a statement of a category.
    #[tactic(auto, unfolding(topos_text::specs::SiteNames::site_statement))]
    pub(crate) fn take(&mut self, alloc: Global, statement: &SiteTree<'a>) -> Result<(), NameStop>
        ensures ok { OnOk result (names.site_statement limits (space_of self.old) (site_of statement.now) ≡ Ok (space_of self.new)) }
        ensures fault { IfErr result (λ s. Stops (names.site_statement limits (space_of self.old) (site_of statement.now)) s) }
    {
        match statement {
            SiteTree::Objects(xs) => self.add_objects(alloc, xs),
            SiteTree::Arrows { names, dom, cod } => self.add_arrow_statement(
                alloc, names, dom, cod,
            ),
            SiteTree::Composite {
                after,
                before,
                arrow,
            } => self.add_composite(alloc, after, before, arrow),
        }
    }

    // Puts arrows with these ends last. The ends are looked up behind the names.
    #[tactic(auto, using(crate::proofs::NameLists::map_to_one), unfolding(topos_text::specs::SiteNames::site_statement, topos_text::specs::SiteNames::object_of))]
    fn add_arrow_statement(
        &mut self,
        alloc: Global,
        fs: &[Written<'a>],
        dom: &Written<'a>,
        cod: &Written<'a>,
    ) -> Result<(), NameStop>
        ensures ok { OnOk result (names.site_statement limits (space_of self.old) (Arrows (map written fs.now) (written dom.now) (written cod.now)) ≡ Ok (space_of self.new)) }
        ensures fault { IfErr result (λ s. Stops (names.site_statement limits (space_of self.old) (Arrows (map written fs.now) (written dom.now) (written cod.now))) s) }
    {
        self.add_arrows(alloc, fs)?;
        let a = self.object(alloc, dom)?;
        let b = self.object(alloc, cod)?;
        self.add_ends(fs.len(), a, b)?;
        Ok(())
    }

    // Lists a composite.
    #[tactic(auto, unfolding(topos_text::specs::SiteNames::site_statement))]
    fn add_composite(
        &mut self,
        alloc: Global,
        after: &Written<'a>,
        before: &Written<'a>,
        arrow: &ArrowTree<'a>,
    ) -> Result<(), NameStop>
        ensures ok { OnOk result (names.site_statement limits (space_of self.old) (Composite (written after.now) (written before.now) (arrow_of arrow.now)) ≡ Ok (space_of self.new)) }
        ensures fault { IfErr result (λ s. Stops (names.site_statement limits (space_of self.old) (Composite (written after.now) (written before.now) (arrow_of arrow.now))) s) }
    {
        let m = self.arrow(alloc, after)?;
        let n = self.arrow(alloc, before)?;
        let k = self.arrow_or_identity(alloc, arrow)?;
        self.listed.push((m, n, k))?;
        Ok(())
    }
}

// How many objects the statements declare. No text declares so many that they do not fit.
#[tactic(auto, unfolding(topos_text::specs::SiteNames::objects_in))]
fn objects_in(statements: &[SiteTree<'_>]) -> Result<u32, NoMemory>
    ensures { IfOk result (λ objects. objects ≡ names.objects_in (map site_of statements.now)) }
{
    let mut objects = 0u32;
    for statement in statements {
        if let SiteTree::Objects(xs) = statement {
            let more = u32::try_from(xs.len()).map_err(|_| NoMemory)?;
            objects = objects.checked_add(more).ok_or(NoMemory)?;
        }
    }
    Ok(objects)
}

// The names before the statements of a category.
pub(crate) fn empty_space<'a>(
    alloc: Global,
    statements: &[SiteTree<'a>],
) -> Result<Space<'a>, NoMemory>
    ensures { IfOk result (λ space. space_of space ≡ names.empty_space (map site_of statements.now)) }
{
    let total = objects_in(statements)?;
    Ok(Space {
        total,
        objects: Names::new(alloc),
        arrows: Names::new(alloc),
        ends: Row::new(alloc),
        listed: Row::new(alloc),
    })
}

// The names of a category.
pub(crate) fn category_of<'a>(
    alloc: Global,
    statements: &[SiteTree<'a>],
) -> Result<Space<'a>, NameStop>
    ensures ok { IfOk result (λ space. change_by (names.site_statement limits) (names.empty_space (map site_of statements.now)) (map site_of statements.now) ≡ Ok (space_of space)) }
    ensures fault { IfErr result (λ s. Stops (change_by (names.site_statement limits) (names.empty_space (map site_of statements.now)) (map site_of statements.now)) s) }
{
    let mut space = empty_space(alloc, statements)?;
    for statement in statements {
        space.take(alloc, statement)?;
    }
    Ok(space)
}
