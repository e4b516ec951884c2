// Lists of names without repetition, in which a name is found by its bytes.
ghost use Rattle.std.specs.Prelude.{◌≡◌, ◌<◌, ◌^◌, ◌||◌, [], ◌∷◌, ◌++◌, Some, None, false, bytes_eq, length, take, ◌-◌, IfOk, IfErr, OnOk, OnErr};
ghost use Rattle.std.specs.List.{list_any};
ghost use Rattle.topos_text.specs.Tokens.{written};
ghost use Rattle.topos_text.specs.Names as names;
ghost use Rattle.topos_text.specs.Names.{twice_fault, look_up, number_in};
ghost use Rattle.topos_names.specs.Stops.{Stops, Blames};

use crate::NameStop;
use crate::stop::{name_of, name_twice, name_unknown};
use indexmap::IndexSet;
use std::alloc::Global;
use std::marker::Model;
use topos_model::{Name, NoMemory, Row};
use topos_text::Written;

// A list of names in the order of their declarations, none of which stands twice.
#[derive(Drop)]
pub(crate) struct Names<'a> {
    set: IndexSet<&'a [u8]>,
}

impl<'a> Model for Names<'a> {
    ghost use Rattle.std.specs.Prelude.{ℕ, ◌<◌, ◌^◌, List, length, map};
    ghost use Rattle.std.specs.Coded.{coded_list, coded_ℕ};

    ghost Value = { List (List ℕ) };

    ghost coded = { coded_list (coded_list coded_ℕ) };

    ghost view = { λ names. map (λ k. k.now) names.set.keys };

    ghost invariant = { λ names. length names.set.keys < 2 ^ 32 };
}

impl<'a> Names<'a> {
    // No names.
    pub(crate) fn new(alloc: Global) -> Names<'a>
        ensures { result ≡ [] }
    {
        Names {
            set: IndexSet::new(alloc),
        }
    }

    // How many names there are.
    pub(crate) fn len(&self) -> u32
        ensures { result ≡ length self.now }
    {
        self.set.len() as u32
    }

    // The number of a name.
    pub(crate) fn find(&self, text: &[u8]) -> Option<u32>
        ensures { result ≡ number_in self.now text.now }
    {
        match self.set.get_index_of(text) {
            Some(number) => Some(number as u32),
            None => None,
        }
    }

    // The number of a name, or that it is unknown.
    pub(crate) fn number(&self, alloc: Global, x: &Written<'_>) -> Result<u32, NameStop>
        ensures ok { IfOk result (λ number. look_up self.now (written x.now) ≡ Ok number) }
        ensures fault { IfErr result (λ s. Stops (look_up self.now (written x.now)) s) }
    {
        match self.find(x.text) {
            Some(number) => Ok(number),
            None => Err(name_unknown(alloc, x)),
        }
    }

    // Whether the name is new.
    pub(crate) fn is_new(&self, alloc: Global, x: &Written<'_>) -> Result<(), NameStop>
        ensures ok { OnOk result (twice_fault self.now (written x.now) ≡ None) }
        ensures fault { IfErr result (λ s. Blames (twice_fault self.now (written x.now)) s) }
    {
        if self.set.contains(x.text) {
            return Err(name_twice(alloc, x));
        }
        Ok(())
    }

    // Puts a name last, and gives its number.
    pub(crate) fn add(&mut self, alloc: Global, x: &Written<'a>) -> Result<u32, NameStop>
        ensures ok { OnOk result (twice_fault self.old (written x.now) ≡ None) }
        ensures added { OnOk result (self.new ≡ self.old ++ x.now.text.now ∷ []) }
        ensures number { IfOk result (λ number. number ≡ length self.old) }
        ensures unchanged { OnErr result (self.new ≡ self.old) }
        ensures fault { IfErr result (λ s. Blames (twice_fault self.old (written x.now)) s) }
    {
        let number = self.len();
        if number == u32::MAX {
            return Err(NameStop::NoMemory);
        }
        match self.set.insert(x.text) {
            Ok(true) => Ok(number),
            Ok(false) => Err(name_twice(alloc, x)),
            Err(_) => Err(NameStop::NoMemory),
        }
    }

    // Puts a new name last, and gives its number.
    pub(crate) fn push(&mut self, text: &'a [u8]) -> Result<u32, NoMemory>
        requires new { list_any (λ y. bytes_eq y text.now) self.old ≡ false }
        ensures added { OnOk result (self.new ≡ self.old ++ text.now ∷ []) }
        ensures number { IfOk result (λ number. number ≡ length self.old) }
        ensures unchanged { OnErr result (self.new ≡ self.old) }
    {
        let number = self.len();
        if number == u32::MAX {
            return Err(NoMemory);
        }
        match self.set.insert(text) {
            Ok(_) => Ok(number),
            Err(_) => Err(NoMemory),
        }
    }

    // Keeps a name, which may be there already.
    pub(crate) fn keep(&mut self, text: &'a [u8]) -> Result<(), NoMemory>
        ensures kept { OnOk result ((x : names.Name) → list_any (λ y. bytes_eq y x) self.new ≡ (list_any (λ y. bytes_eq y x) self.old || bytes_eq text.now x)) }
    {
        if self.set.contains(text) {
            return Ok(());
        }
        self.push(text)?;
        Ok(())
    }

    // Keeps names, some of which may be there already.
    pub(crate) fn keep_all(&mut self, more: &Names<'a>) -> Result<(), NoMemory>
        ensures kept { OnOk result ((x : names.Name) → list_any (λ y. bytes_eq y x) self.new ≡ (list_any (λ y. bytes_eq y x) self.old || list_any (λ y. bytes_eq y x) more.now)) }
    {
        for text in more.set.as_slice() {
            self.keep(*text)?;
        }
        Ok(())
    }

    // Gives the last name up.
    pub(crate) fn undo(&mut self)
        ensures { self.new ≡ take (length self.old - 1) self.old }
    {
        self.set.pop();
    }

    // The bytes of all names.
    pub(crate) fn rows(&self, alloc: Global) -> Result<Row<Name>, NoMemory>
        ensures { IfOk result (λ rows. rows ≡ self.now) }
    {
        let mut rows = Row::new(alloc);
        for text in self.set.as_slice() {
            rows.push(name_of(alloc, *text)?)?;
        }
        Ok(rows)
    }
}
