// Lists of numbers without repetition.
ghost use Rattle.std.specs.Prelude.{◌≡◌, [], ◌∷◌, ◌++◌, None, IfErr, OnOk};
ghost use Rattle.topos_text.specs.Tokens.{written};
ghost use Rattle.topos_text.specs.Names.{again_fault};
ghost use Rattle.topos_names.specs.Stops.{Blames};

use crate::NameStop;
use crate::stop::name_twice;
use indexmap::IndexSet;
use std::alloc::Global;
use std::marker::Model;
use topos_text::Written;

// A list of numbers, none of which stands twice.
#[derive(Drop)]
pub(crate) struct Numbers {
    set: IndexSet<u32>,
}

impl Model for Numbers {
    ghost use Rattle.std.specs.Prelude.{ℕ, List};
    ghost use Rattle.std.specs.Coded.{coded_list, coded_ℕ};

    ghost Value = { List ℕ };

    ghost coded = { coded_list coded_ℕ };

    ghost view = { λ numbers. numbers.set.keys };
}

impl Numbers {
    // No numbers.
    pub(crate) fn new(alloc: Global) -> Numbers
        ensures { result ≡ [] }
    {
        Numbers {
            set: IndexSet::new(alloc),
        }
    }

    // Puts the number of what is named last. It must be new.
    pub(crate) fn add(
        &mut self,
        alloc: Global,
        number: u32,
        x: &Written<'_>,
    ) -> Result<(), NameStop>
        ensures ok { OnOk result (again_fault self.old number (written x.now) ≡ None) }
        ensures added { OnOk result (self.new ≡ self.old ++ number ∷ []) }
        ensures fault { IfErr result (λ s. Blames (again_fault self.old number (written x.now)) s) }
    {
        match self.set.insert(number) {
            Ok(true) => Ok(()),
            Ok(false) => Err(name_twice(alloc, x)),
            Err(_) => Err(NameStop::NoMemory),
        }
    }
}
