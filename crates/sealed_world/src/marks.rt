// Marks on numbers.
ghost use Rattle.std.specs.Prelude.{◌≡◌, [], get_or, false, OnOk, OnErr};
ghost use Rattle.sealed_world.specs.Marks.{IsMarkedBesides};

use std::alloc::Global;
use std::marker::Model;
use topos_model::NoMemory;

// A set of numbers: a mark for each, up to the last one that was marked.
#[derive(Drop)]
pub(crate) struct Marks {
    items: Vec<bool>,
}

impl Model for Marks {
    ghost use Rattle.std.specs.Prelude.{Bool, List};

    ghost Value = { List Bool };

    ghost view = { λ marks. marks.items.items };
}

impl Marks {
    // None. They take no memory.
    pub(crate) fn new(alloc: Global) -> Marks
        ensures { result ≡ [] }
    {
        Marks {
            items: Vec::new(alloc),
        }
    }

    // Whether a number is marked.
    pub(crate) fn is_marked(&self, number: u32) -> bool
        ensures { result ≡ get_or self.now number false }
    {
        let place = number as usize;
        place < self.items.len() && self.items[place]
    }

    // Marks a number.
    pub(crate) fn mark(&mut self, number: u32) -> Result<(), NoMemory>
        ensures ok { OnOk result (IsMarkedBesides number self.old self.new) }
        ensures err { OnErr result (self.new ≡ self.old) }
    {
        let place = number as usize;
        if self.items.len() <= place {
            if self.items.resize(place + 1, false).is_err() {
                return Err(NoMemory);
            }
        }
        self.items[place] = true;
        Ok(())
    }
}
