// The variables of a term.
ghost use Rattle.std.specs.Prelude.{◌≡◌, [], ◌∷◌, None, Ok, drop, OnOk, IfOk, IfErr};
ghost use Rattle.topos_text.specs.Tokens.{written};
ghost use Rattle.topos_text.specs.Names.{twice_fault, look_up, number_in};
ghost use Rattle.topos_names.specs.Stops.{Stops, Blames};

use crate::NameStop;
use crate::stop::{name_twice, name_unknown};
use std::alloc::Global;
use std::marker::Model;
use topos_model::NoMemory;
use topos_text::Written;

// The names of the variables in scope, of which contracts see the innermost first. They are few, since the tokens of a term are.
#[derive(Drop)]
pub(crate) struct Variables<'a> {
    names: Vec<&'a [u8]>,
}

impl<'a> Model for Variables<'a> {
    ghost use Rattle.std.specs.Prelude.{ℕ, ◌<◌, ◌^◌, List, length, map, reverse};
    ghost use Rattle.std.specs.Coded.{coded_list, coded_ℕ};

    ghost Value = { List (List ℕ) };

    ghost coded = { coded_list (coded_list coded_ℕ) };

    ghost view = { λ variables. reverse (map (λ x. x.now) variables.names.items) };

    ghost invariant = { λ variables. length variables.names.items < 2 ^ 32 };
}

impl<'a> Variables<'a> {
    // No variables.
    pub(crate) fn new(alloc: Global) -> Variables<'a>
        ensures { result ≡ [] }
    {
        Variables {
            names: Vec::new(alloc),
        }
    }

    // The place of a variable, from the innermost on.
    pub(crate) fn find(&self, text: &[u8]) -> Option<u32>
        ensures { result ≡ number_in self.now text.now }
    {
        for i in 0..self.names.len() {
            if self.names[self.names.len() - 1 - i] == text {
                return Some(i as u32);
            }
        }
        None
    }

    // The place of a variable, or that the name is unknown.
    pub(crate) fn number(&self, alloc: Global, x: &Written<'_>) -> Result<u32, NameStop>
        ensures ok { IfOk result (λ number. look_up self.now (written x.now) ≡ Ok number) }
        ensures fault { IfErr result (λ s. Stops (look_up self.now (written x.now)) s) }
    {
        match self.find(x.text) {
            Some(number) => Ok(number),
            None => Err(name_unknown(alloc, x)),
        }
    }

    // Whether the name is of no variable.
    pub(crate) fn is_new(&self, alloc: Global, x: &Written<'_>) -> Result<(), NameStop>
        ensures ok { OnOk result (twice_fault self.now (written x.now) ≡ None) }
        ensures fault { IfErr result (λ s. Blames (twice_fault self.now (written x.now)) s) }
    {
        match self.find(x.text) {
            Some(_) => Err(name_twice(alloc, x)),
            None => Ok(()),
        }
    }

    // Puts a variable innermost.
    pub(crate) fn push(&mut self, text: &'a [u8]) -> Result<(), NoMemory>
        ensures { OnOk result (self.new ≡ text.now ∷ self.old) }
    {
        if self.names.len() >= u32::MAX as usize {
            return Err(NoMemory);
        }
        match self.names.push(text) {
            Ok(_) => Ok(()),
            Err(_) => Err(NoMemory),
        }
    }

    // Gives the innermost variable up.
    pub(crate) fn pop(&mut self)
        ensures { self.new ≡ drop 1 self.old }
    {
        self.names.pop();
    }
}
