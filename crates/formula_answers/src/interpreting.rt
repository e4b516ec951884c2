// What formulas are interpreted by, and what their tuples are read from.
ghost use Rattle.std.specs.Prelude.{◌≡◌};
ghost use Rattle.formula_answers.specs.MapTables.{AreMapTables};
ghost use Rattle.formula_answers.specs.Formulas.{reading, Serves};

use element_values::Elements;
use internal_interp::Interpreter;
use sealed_world::SealedWorld;
use topos_model::MapTable;

/// A sealed world, whose types are sealed and whose presheaves are declared, with maps by their tables.
pub fn interpreter<'a>(world: &'a SealedWorld, maps: &'a [MapTable]) -> Interpreter<'a>
    requires maps { AreMapTables world.now.site world.now.functors maps.now }
    ensures serves { Serves world.now maps.now result }
{
    let site = world.site();
    site.cat().laws();
    let _top = site.top();
    Interpreter {
        site,
        stages: world.stages(),
        store: world.store(),
        omega: world.truth_values(),
        maps,
    }
}

/// The same site, store and truth values.
pub(crate) fn elements<'a>(interpreter: &Interpreter<'a>) -> Elements<'a>
    ensures { result ≡ reading interpreter.now }
{
    Elements {
        site: interpreter.site,
        store: interpreter.store,
        omega: interpreter.omega,
    }
}
