// What is known of the arrows once for all.
ghost use Rattle.std.specs.Prelude.{ℕ, ◌^◌, ◌<◌, length, get_or, IfOk};
ghost use Rattle.functor_store.specs.Fields.{IsTables};

use crate::numbers::filled;
use std::alloc::Global;
use topos_model::{NoMemory, Row};

// The number of arrows into each object, and the place of each arrow among the arrows into its codomain.
#[derive(Drop)]
pub(crate) struct Tables {
    pub(crate) into: Vec<u32>,
    pub(crate) places: Row<u32>,
}

// The tables of arrows with these domains and codomains.
pub(crate) fn arrow_tables(
    alloc: Global,
    objects: u32,
    ends: &[(u32, u32)],
) -> Result<Tables, NoMemory>
    requires arrows { length ends.now < 2 ^ 32 }
    requires ends_in { (f : ℕ) → f < length ends.now → (get_or ends.now f (0, 0)).1 < objects }
    ensures tables { IfOk result (λ tables. IsTables objects ends.now tables.into.items tables.places) }
{
    let mut into = filled(alloc, objects as usize, 0)?;
    let mut places = Row::new(alloc);
    for (_, c) in ends {
        let before = into[*c as usize];
        places.push(before)?;
        into[*c as usize] = before + 1;
    }
    Ok(Tables { into, places })
}
