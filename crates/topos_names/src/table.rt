// Names without repetition, each with a value.
ghost use Rattle.std.specs.Prelude.{◌≡◌, ◌<◌, ◌^◌, [], ◌∷◌, ◌++◌, Some, false, length, map, bytes_eq, slice_get, IfOk, IfErr, OnOk, OnErr};
ghost use Rattle.std.specs.List.{list_any};
ghost use Rattle.topos_text.specs.Tokens.{written};
ghost use Rattle.topos_text.specs.Names.{look_up};
ghost use Rattle.topos_names.specs.Stops.{Stops};

use crate::NameStop;
use crate::stop::name_unknown;
use indexmap::IndexMap;
use std::alloc::Global;
use std::marker::Model;
use topos_model::NoMemory;
use topos_text::Written;

// Names in the order of their declarations, each with a value. None stands twice.
#[derive(Drop)]
pub(crate) struct Table<'a, V> {
    held: IndexMap<&'a [u8], V>,
}

impl<'a, V> Model for Table<'a, V> {
    ghost use Rattle.std.specs.Prelude.{ℕ, ◌<◌, ◌^◌, List, length, map};
    ghost use Rattle.std.specs.Coded.{coded_list, coded_ℕ, coded×};

    ghost Value = { List (List ℕ × V) };

    ghost coded = { coded_list (coded× (coded_list coded_ℕ) V.code) };

    ghost view = { λ table. map (λ e. (e.0.now, e.1)) table.held.entries };

    ghost invariant = { λ table. length table.held.entries < 2 ^ 32 };
}

impl<'a, V> Table<'a, V> {
    // No names.
    pub(crate) fn new(alloc: Global) -> Table<'a, V>
        ensures { result ≡ [] }
    {
        Table {
            held: IndexMap::new(alloc),
        }
    }

    // How many names there are.
    pub(crate) fn len(&self) -> u32
        ensures { result ≡ length self.now }
    {
        self.held.len() as u32
    }

    // The number of a name, or that it is unknown.
    pub(crate) fn number(&self, alloc: Global, x: &Written<'_>) -> Result<u32, NameStop>
        ensures ok { IfOk result (λ number. look_up (map (λ e. e.0) self.now) (written x.now) ≡ Ok number) }
        ensures within { IfOk result (λ number. number < length self.now) }
        ensures fault { IfErr result (λ s. Stops (look_up (map (λ e. e.0) self.now) (written x.now)) s) }
    {
        match self.held.get_index_of(x.text) {
            Some(number) => Ok(number as u32),
            None => Err(name_unknown(alloc, x)),
        }
    }
}

impl<'a, V> Table<'a, V> {
    // The value of the name of this number.
    pub(crate) fn get(&self, number: u32) -> &V
        requires { number < length self.now }
        ensures { slice_get (map (λ e. e.1) self.now) number ≡ Some result.now }
    {
        &self.held[number as usize]
    }

    // The name of this number, and its value.
    pub(crate) fn entry(&self, number: u32) -> (&'a [u8], &V)
        requires { number < length self.now }
        ensures { slice_get self.now number ≡ Some (result.0.now, result.1.now) }
    {
        let (text, value) = self.held.get_index(number as usize).unwrap();
        (*text, value)
    }
}

impl<'a, V: Drop> Table<'a, V> {
    // Puts a new name last.
    pub(crate) fn add(&mut self, text: &'a [u8], value: V) -> Result<u32, NoMemory>
        requires new { list_any (λ y. bytes_eq y text.now) (map (λ e. e.0) self.old) ≡ false }
        ensures added { OnOk result (self.new ≡ self.old ++ (text.now, value) ∷ []) }
        ensures number { IfOk result (λ number. number ≡ length self.old) }
        ensures unchanged { OnErr result (self.new ≡ self.old) }
    {
        let number = self.len();
        if number == u32::MAX {
            return Err(NoMemory);
        }
        match self.held.insert(text, value) {
            Ok(_) => Ok(number),
            Err(_) => Err(NoMemory),
        }
    }
}
