// What a statement may name.
ghost use Rattle.std.specs.Prelude.{◌≡◌, ◌+◌, ◌<◌, [], ◌∷◌, ◌++◌, None, Some, Ok, length, map, unwrap_or, OnOk, IfOk, IfErr};
ghost use Rattle.std.specs.Option.{option_map, option_copied};
ghost use Rattle.topos_text.specs.Tokens.{written};
ghost use Rattle.topos_text.specs.Names.{twice_fault, known, with_functor, with_maps, functor_of, map_of, topology_of, under_of};
ghost use Rattle.topos_text.specs.StatementNames as names;
ghost use Rattle.topos_text.specs.Resolving.{first_scope, document_with};
ghost use Rattle.topos_names.specs.Categories.{with_category, with_category_functor};
ghost use Rattle.topos_names.specs.Spaces.{space_of, limits};
ghost use Rattle.topos_names.specs.Stops.{Stops, Blames};

use crate::names::Names;
use crate::space::Space;
use crate::stages::Stages;
use crate::stop::name_unknown;
use crate::table::Table;
use crate::{NameStop, rows};
use std::alloc::Global;
use std::marker::Model;
use topos_model::{Doc, NoMemory, Row, Stmt, TopDecl};
use topos_text::Written;

// A presheaf on a second category: the number of that category, and the names of the elements at each object.
#[derive(Drop)]
pub(crate) struct OnFunctor<'a> {
    pub(crate) cat: u32,
    pub(crate) elements: Option<Stages<'a>>,
}

// What a statement may name. All names of the document stand in `known`.
#[derive(Drop)]
pub(crate) struct Scope<'a> {
    known: Names<'a>,
    site: Space<'a>,
    topologies: Names<'a>,
    functors: Table<'a, Option<Stages<'a>>>,
    maps: Names<'a>,
    cats: Table<'a, Space<'a>>,
    cat_functors: Table<'a, u32>,
    on_functors: Table<'a, OnFunctor<'a>>,
    on_maps: Names<'a>,
}

impl<'a> Model for Scope<'a> {
    ghost use Rattle.topos_text.specs.Names as names;

    ghost Value = { names.Scope };

    ghost use Rattle.topos_names.specs.Scopes.{seen, IsScope};

    ghost view = { seen };

    ghost invariant = { IsScope };
}

impl<'a> Scope<'a> {
    // The names of a site and its topologies, before the statements.
    pub(crate) fn first(
        alloc: Global,
        site: Space<'a>,
        topologies: Names<'a>,
    ) -> Result<Scope<'a>, NoMemory>
        ensures { IfOk result (λ scope. scope ≡ first_scope (space_of site.entry) topologies.entry) }
    {
        let mut known = Names::new(alloc);
        known.keep_all(&site.objects)?;
        known.keep_all(&site.arrows)?;
        known.keep_all(&topologies)?;
        Ok(Scope {
            known,
            site,
            topologies,
            functors: Table::new(alloc),
            maps: Names::new(alloc),
            cats: Table::new(alloc),
            cat_functors: Table::new(alloc),
            on_functors: Table::new(alloc),
            on_maps: Names::new(alloc),
        })
    }

    // The document of these statements and topologies.
    pub(crate) fn document(
        &self,
        alloc: Global,
        version: u32,
        site_len: u32,
        stmts: Row<Stmt>,
        tops: Row<TopDecl>,
    ) -> Result<Doc, NoMemory>
        ensures { IfOk result (λ doc. doc ≡ document_with limits version site_len (self.now, stmts) tops) }
    {
        let objects = self.site.objects.rows(alloc)?;
        let arrows = self.site.arrows.rows(alloc)?;
        let cat = self.site.raw(alloc)?;
        let functors = rows::functors(alloc, &self.functors)?;
        let maps = self.maps.rows(alloc)?;
        let cats = rows::categories(alloc, &self.cats)?;
        let cat_functors = rows::category_functors(alloc, &self.cat_functors)?;
        let on_functors = rows::on_functors(alloc, &self.on_functors)?;
        let on_maps = self.on_maps.rows(alloc)?;
        Ok(Doc {
            version,
            objects,
            arrows,
            cat,
            tops,
            site_len,
            functors,
            maps,
            stmts,
            cats,
            cat_functors,
            on_functors,
            on_maps,
        })
    }

    // The number of a functor.
    pub(crate) fn functor(&self, alloc: Global, x: &Written<'_>) -> Result<u32, NameStop>
        ensures ok { IfOk result (λ number. functor_of self.now (written x.now) ≡ Ok number) }
        ensures within { IfOk result (λ number. number < length self.now.functors) }
        ensures fault { IfErr result (λ s. Stops (functor_of self.now (written x.now)) s) }
    {
        self.functors.number(alloc, x)
    }

    // The number of a map.
    pub(crate) fn map(&self, alloc: Global, x: &Written<'_>) -> Result<u32, NameStop>
        ensures ok { IfOk result (λ number. map_of self.now (written x.now) ≡ Ok number) }
        ensures fault { IfErr result (λ s. Stops (map_of self.now (written x.now)) s) }
    {
        self.maps.number(alloc, x)
    }

    // The number of a topology, which is above 0.
    #[tactic(auto, unfolding(topos_text::specs::Names::topology_of))]
    pub(crate) fn topology(&self, alloc: Global, j: &Written<'_>) -> Result<u32, NameStop>
        ensures ok { IfOk result (λ number. topology_of self.now (written j.now) ≡ Ok number) }
        ensures fault { IfErr result (λ s. Stops (topology_of self.now (written j.now)) s) }
    {
        match self.topologies.number(alloc, j)?.checked_add(1) {
            Some(number) => Ok(number),
            None => Err(NameStop::NoMemory),
        }
    }

    // The topology in force.
    pub(crate) fn under(&self, alloc: Global, j: &Option<Written<'_>>) -> Result<u32, NameStop>
        ensures ok { IfOk result (λ number. under_of self.now (option_map written j.now) ≡ Ok number) }
        ensures fault { IfErr result (λ s. Stops (under_of self.now (option_map written j.now)) s) }
    {
        match j {
            Some(j) => self.topology(alloc, j),
            None => Ok(0),
        }
    }

    // The names of the site.
    pub(crate) fn site(&self) -> &Space<'a>
        ensures { space_of result.now ≡ self.now.site }
    {
        &self.site
    }

    // The names of the elements of a functor at an object, where it has some.
    pub(crate) fn elements(&self, functor: u32, object: u32) -> Option<&Names<'a>>
        requires { functor < length self.now.functors }
        ensures { names.element_names self.now functor object ≡ unwrap_or (option_copied result) [] }
    {
        match self.functors.get(functor) {
            Some(stages) => stages.elements(object),
            None => None,
        }
    }

    // The number of a second category.
    pub(crate) fn category(&self, alloc: Global, d: &Written<'_>) -> Result<u32, NameStop>
        ensures ok { IfOk result (λ number. names.category_of self.now (written d.now) ≡ Ok number) }
        ensures within { IfOk result (λ number. number < length self.now.cats) }
        ensures fault { IfErr result (λ s. Stops (names.category_of self.now (written d.now)) s) }
    {
        self.cats.number(alloc, d)
    }

    // The names of a second category.
    pub(crate) fn space(&self, cat: u32) -> &Space<'a>
        requires { cat < length self.now.cats }
        ensures { space_of result.now ≡ names.space_of self.now cat }
    {
        self.cats.get(cat)
    }

    // The number of a functor of categories.
    pub(crate) fn category_functor(&self, alloc: Global, f: &Written<'_>) -> Result<u32, NameStop>
        ensures ok { IfOk result (λ number. names.category_functor_of self.now (written f.now) ≡ Ok number) }
        ensures within { IfOk result (λ number. number < length self.now.cat_functors) }
        ensures fault { IfErr result (λ s. Stops (names.category_functor_of self.now (written f.now)) s) }
    {
        self.cat_functors.number(alloc, f)
    }

    // The category that a functor of categories goes from.
    pub(crate) fn source(&self, functor: u32) -> u32
        requires { functor < length self.now.cat_functors }
        ensures { result ≡ names.source_of self.now functor }
    {
        *self.cat_functors.get(functor)
    }

    // The number of a presheaf on a second category.
    pub(crate) fn on_functor(
        &self,
        alloc: Global,
        cat: u32,
        p: &Written<'_>,
    ) -> Result<u32, NameStop>
        ensures ok { IfOk result (λ number. names.on_functor_of self.now cat (written p.now) ≡ Ok number) }
        ensures fault { IfErr result (λ s. Stops (names.on_functor_of self.now cat (written p.now)) s) }
    {
        let number = self.on_functors.number(alloc, p)?;
        if self.on_functors.get(number).cat != cat {
            return Err(name_unknown(alloc, p));
        }
        Ok(number)
    }

    // Whether a name is new.
    pub(crate) fn is_new(&self, alloc: Global, x: &Written<'_>) -> Result<(), NameStop>
        ensures ok { OnOk result (twice_fault (known self.now) (written x.now) ≡ None) }
        ensures fault { IfErr result (λ s. Blames (twice_fault (known self.now) (written x.now)) s) }
    {
        self.known.is_new(alloc, x)
    }

    // Declares a functor with the names of its elements, where it has some.
    pub(crate) fn declare_functor(
        &mut self,
        alloc: Global,
        x: &Written<'a>,
        elements: Option<Stages<'a>>,
    ) -> Result<u32, NameStop>
        ensures ok { OnOk result (twice_fault (known self.old) (written x.now) ≡ None) }
        ensures declared { OnOk result (self.new ≡ with_functor self.old (written x.now) elements.entry) }
        ensures number { IfOk result (λ number. number ≡ length self.old.functors) }
        ensures fault { IfErr result (λ s. Blames (twice_fault (known self.old) (written x.now)) s) }
    {
        self.known.add(alloc, x)?;
        match self.functors.add(x.text, elements) {
            Ok(number) => Ok(number),
            Err(_) => {
                self.known.undo();
                Err(NameStop::NoMemory)
            }
        }
    }

    // Declares a map.
    pub(crate) fn declare_map(&mut self, alloc: Global, x: &Written<'a>) -> Result<u32, NameStop>
        ensures ok { OnOk result (twice_fault (known self.old) (written x.now) ≡ None) }
        ensures declared { OnOk result (self.new ≡ with_maps self.old (written x.now ∷ [])) }
        ensures number { IfOk result (λ number. number ≡ length self.old.maps) }
        ensures fault { IfErr result (λ s. Blames (twice_fault (known self.old) (written x.now)) s) }
    {
        self.known.add(alloc, x)?;
        match self.maps.push(x.text) {
            Ok(number) => Ok(number),
            Err(_) => {
                self.known.undo();
                Err(NameStop::NoMemory)
            }
        }
    }

    // Declares a second category.
    pub(crate) fn declare_category(
        &mut self,
        alloc: Global,
        x: &Written<'a>,
        space: Space<'a>,
    ) -> Result<u32, NameStop>
        ensures ok { OnOk result (twice_fault (known self.old) (written x.now) ≡ None) }
        ensures declared { OnOk result (self.new ≡ with_category self.old (written x.now) (space_of space.entry)) }
        ensures number { IfOk result (λ number. number ≡ length self.old.cats) }
        ensures fault { IfErr result (λ s. Blames (twice_fault (known self.old) (written x.now)) s) }
    {
        self.known.add(alloc, x)?;
        match self.cats.add(x.text, space) {
            Ok(number) => Ok(number),
            Err(_) => {
                self.known.undo();
                Err(NameStop::NoMemory)
            }
        }
    }

    // Declares a functor of categories that goes from this category.
    pub(crate) fn declare_category_functor(
        &mut self,
        alloc: Global,
        x: &Written<'a>,
        cat: u32,
    ) -> Result<u32, NameStop>
        ensures ok { OnOk result (twice_fault (known self.old) (written x.now) ≡ None) }
        ensures declared { OnOk result (self.new ≡ with_category_functor self.old (written x.now) cat) }
        ensures number { IfOk result (λ number. number ≡ length self.old.cat_functors) }
        ensures fault { IfErr result (λ s. Blames (twice_fault (known self.old) (written x.now)) s) }
    {
        self.known.add(alloc, x)?;
        match self.cat_functors.add(x.text, cat) {
            Ok(number) => Ok(number),
            Err(_) => {
                self.known.undo();
                Err(NameStop::NoMemory)
            }
        }
    }

    // Declares a presheaf on a second category, with the names of its elements, where it has some.
    pub(crate) fn declare_on_functor(
        &mut self,
        alloc: Global,
        x: &Written<'a>,
        cat: u32,
        elements: Option<Stages<'a>>,
    ) -> Result<u32, NameStop>
        ensures ok { OnOk result (twice_fault (known self.old) (written x.now) ≡ None) }
        ensures declared { OnOk result (self.new ≡ names.with_on_functor self.old (written x.now) cat elements.entry) }
        ensures number { IfOk result (λ number. number ≡ length self.old.on_functors) }
        ensures fault { IfErr result (λ s. Blames (twice_fault (known self.old) (written x.now)) s) }
    {
        self.known.add(alloc, x)?;
        match self.on_functors.add(x.text, OnFunctor { cat, elements }) {
            Ok(number) => Ok(number),
            Err(_) => {
                self.known.undo();
                Err(NameStop::NoMemory)
            }
        }
    }

    // Declares a map of presheaves on a second category.
    pub(crate) fn declare_on_map(&mut self, alloc: Global, x: &Written<'a>) -> Result<u32, NameStop>
        ensures ok { OnOk result (twice_fault (known self.old) (written x.now) ≡ None) }
        ensures declared { OnOk result (self.new ≡ record self.old { on_maps = self.old.on_maps ++ x.now.text.now ∷ [] }) }
        ensures number { IfOk result (λ number. number ≡ length self.old.on_maps) }
        ensures fault { IfErr result (λ s. Blames (twice_fault (known self.old) (written x.now)) s) }
    {
        self.known.add(alloc, x)?;
        match self.on_maps.push(x.text) {
            Ok(number) => Ok(number),
            Err(_) => {
                self.known.undo();
                Err(NameStop::NoMemory)
            }
        }
    }
}
