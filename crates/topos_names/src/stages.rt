// The names of a presheaf's elements at each object.
ghost use Rattle.std.specs.Prelude.{◌≡◌, ◌<◌, ℕ, [], ◌∷◌, ◌++◌, None, false, length, map, get_or, eqb, unwrap_or, OnOk, IfOk, IfErr};
ghost use Rattle.std.specs.List.{list_any, range_with_len};
ghost use Rattle.std.specs.Option.{option_copied};
ghost use Rattle.topos_text.specs.Tokens.{written};
ghost use Rattle.topos_text.specs.Names.{again_fault};
ghost use Rattle.topos_text.specs.StatementNames.{elements_at};
ghost use Rattle.topos_names.specs.Stops.{Blames};

use crate::NameStop;
use crate::names::Names;
use crate::stop::name_twice;
use indexmap::IndexMap;
use std::alloc::Global;
use std::marker::Model;
use topos_model::{Name, NoMemory, Row};
use topos_text::Written;

// The objects that have elements so far, each once, with the names of the elements.
#[derive(Drop)]
pub(crate) struct Listed<'a> {
    at: IndexMap<u32, Names<'a>>,
}

impl<'a> Model for Listed<'a> {
    ghost use Rattle.std.specs.Prelude.{ℕ, List};
    ghost use Rattle.std.specs.Coded.{coded_list, coded_ℕ, coded×};

    ghost Value = { List (ℕ × List (List ℕ)) };

    ghost coded = { coded_list (coded× coded_ℕ (coded_list (coded_list coded_ℕ))) };

    ghost view = { λ listed. listed.at.entries };

    ghost use Rattle.topos_names.specs.Stages.{IsApart};

    ghost invariant = { λ listed. IsApart listed.at.entries };
}

impl<'a> Listed<'a> {
    // No objects.
    pub(crate) fn new(alloc: Global) -> Listed<'a>
        ensures { result ≡ [] }
    {
        Listed {
            at: IndexMap::new(alloc),
        }
    }

    // Whether the object of this name is new.
    pub(crate) fn is_new(&self, alloc: Global, object: u32, u: &Written<'_>) -> Result<(), NameStop>
        ensures ok { OnOk result (again_fault (map (λ stage. stage.0) self.now) object (written u.now) ≡ None) }
        ensures free { OnOk result (list_any (λ n. eqb n object) (map (λ stage. stage.0) self.now) ≡ false) }
        ensures fault { IfErr result (λ s. Blames (again_fault (map (λ stage. stage.0) self.now) object (written u.now)) s) }
    {
        if self.at.contains_key(&object) {
            return Err(name_twice(alloc, u));
        }
        Ok(())
    }

    // Puts the elements at a new object last.
    pub(crate) fn push(&mut self, object: u32, names: Names<'a>) -> Result<(), NoMemory>
        requires free { list_any (λ n. eqb n object) (map (λ stage. stage.0) self.old) ≡ false }
        ensures { OnOk result (self.new ≡ self.old ++ (object, names.entry) ∷ []) }
    {
        match self.at.insert(object, names) {
            Ok(_) => Ok(()),
            Err(_) => Err(NoMemory),
        }
    }

    // The elements at an object, where it is there.
    pub(crate) fn elements(&self, object: u32) -> Option<&Names<'a>>
        ensures { elements_at self.now object ≡ unwrap_or (option_copied result) [] }
    {
        self.at.get(&object)
    }
}

// The names of a presheaf's elements at each of so many objects.
#[derive(Drop)]
pub(crate) struct Stages<'a> {
    objects: u32,
    listed: Listed<'a>,
}

impl<'a> Model for Stages<'a> {
    ghost use Rattle.std.specs.Prelude.{ℕ, List, map};
    ghost use Rattle.std.specs.List.{range_with_len};
    ghost use Rattle.std.specs.Coded.{coded_list, coded_ℕ};
    ghost use Rattle.topos_text.specs.StatementNames.{elements_at};

    ghost Value = { List (List (List ℕ)) };

    ghost coded = { coded_list (coded_list (coded_list coded_ℕ)) };

    ghost view = { λ stages. map (elements_at stages.listed) (range_with_len 0 stages.objects) };
}

impl<'a> Stages<'a> {
    // The elements at the objects, which are none where none are listed.
    pub(crate) fn new(objects: u32, listed: Listed<'a>) -> Stages<'a>
        ensures { result ≡ map (elements_at listed.entry) (range_with_len 0 objects) }
    {
        Stages { objects, listed }
    }

    // The elements at an object, where it has some.
    pub(crate) fn elements(&self, object: u32) -> Option<&Names<'a>>
        ensures { get_or self.now object [] ≡ unwrap_or (option_copied result) [] }
    {
        if object < self.objects {
            self.listed.elements(object)
        } else {
            None
        }
    }

    // How many elements there are at each object.
    pub(crate) fn sizes(&self, alloc: Global) -> Result<Row<u32>, NoMemory>
        ensures { IfOk result (λ sizes. sizes ≡ map length self.now) }
    {
        let mut sizes = Row::new(alloc);
        for object in 0..self.objects {
            sizes.push(size(self.listed.elements(object)))?;
        }
        Ok(sizes)
    }

    // The bytes of the names at each object.
    pub(crate) fn rows(&self, alloc: Global) -> Result<Row<Row<Name>>, NoMemory>
        ensures { IfOk result (λ rows. rows ≡ self.now) }
    {
        let mut rows = Row::new(alloc);
        for object in 0..self.objects {
            rows.push(names(alloc, self.listed.elements(object))?)?;
        }
        Ok(rows)
    }
}

// How many elements there are.
fn size(elements: Option<&Names<'_>>) -> u32
    ensures { result ≡ length (unwrap_or (option_copied elements.entry) []) }
{
    match elements {
        Some(names) => names.len(),
        None => 0,
    }
}

// The bytes of the names.
fn names(alloc: Global, elements: Option<&Names<'_>>) -> Result<Row<Name>, NoMemory>
    ensures { IfOk result (λ names. names ≡ unwrap_or (option_copied elements.entry) []) }
{
    match elements {
        Some(names) => names.rows(alloc),
        None => Ok(Row::new(alloc)),
    }
}
