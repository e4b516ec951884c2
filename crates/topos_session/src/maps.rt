// The maps that are declared so far.
ghost use Rattle.std.specs.Prelude.{◌≡◌, ◌++◌, [], length, map, take, IfOk, OnOk, OnErr};
ghost use Rattle.formula_answers.specs.MapTables.{ends_of};

use std::alloc::Global;
use std::marker::Model;
use topos_model::{Copied, MapTable, MapTy, NoMemory, Row};

/// Maps by their tables, and their ends besides, which the typing of a term reads.
#[derive(Drop)]
pub struct DeclaredMaps {
    tables: Row<MapTable>,
    ends: Row<MapTy>,
}

impl Model for DeclaredMaps {
    ghost use Rattle.std.specs.Prelude.{◌≡◌, List};
    ghost use Rattle.topos_model.specs.declared.context.MapTable.{MapTable};
    ghost use Rattle.formula_answers.specs.MapTables.{ends_of};

    ghost Value = { List MapTable };

    ghost use Rattle.topos_model.specs.contracts.ty.Ty as ty;
    ghost use Rattle.std.specs.Coded.{codes};

    ghost coded = { Prim.hlevel (codes, ty.the_row.coded) };

    ghost view = { λ maps. maps.tables };

    ghost invariant = { λ maps. maps.ends ≡ ends_of maps.tables };
}

// The ends of maps.
fn ends(alloc: Global, tables: &[MapTable]) -> Result<Row<MapTy>, NoMemory>
    ensures { IfOk result (λ ends. ends ≡ ends_of tables.now) }
{
    let mut ends = Row::new(alloc);
    for table in tables {
        ends.push(table.ends.copy(alloc)?)?;
    }
    Ok(ends)
}

impl DeclaredMaps {
    /// None.
    pub fn new(alloc: Global) -> DeclaredMaps
        ensures { result ≡ [] }
    {
        DeclaredMaps {
            tables: Row::new(alloc),
            ends: Row::new(alloc),
        }
    }

    /// How many there are.
    pub fn len(&self) -> usize
        ensures { result ≡ length self.now }
    {
        self.tables.len()
    }

    /// The tables, by number.
    pub fn tables(&self) -> &[MapTable]
        ensures { result.now ≡ self.now }
    {
        self.tables.as_slice()
    }

    /// Their ends.
    pub fn ends(&self) -> &[MapTy]
        ensures { result.now ≡ ends_of self.now }
    {
        self.ends.as_slice()
    }

    /// Puts maps behind those that are there, or changes nothing.
    pub fn append(&mut self, alloc: Global, tables: Row<MapTable>) -> Result<(), NoMemory>
        ensures ok { OnOk result (self.new ≡ self.old ++ tables) }
        ensures err { OnErr result (self.new ≡ self.old) }
    {
        let before = self.tables.len();
        let more = ends(alloc, tables.as_slice())?;
        self.tables.append(tables)?;
        if self.ends.append(more).is_err() {
            self.tables.truncate(before);
            return Err(NoMemory);
        }
        Ok(())
    }

    /// Keeps the first maps, so many.
    pub fn truncate(&mut self, len: usize)
        ensures { self.new ≡ take len self.old }
    {
        self.tables.truncate(len);
        self.ends.truncate(len);
    }
}
