// The types of the variables in scope.
ghost use Rattle.std.specs.Prelude.{◌≡◌, get_or, reverse, Ok};
ghost use Rattle.topos_model.specs.declared.ty.Ty.{One};
ghost use Rattle.term_typing.specs.Inferring.{Infers};

use crate::TypeFault;
use std::alloc::Global;
use topos_model::{Boxed, Copied, Row, Ty};

/// The type of a variable, counted from the innermost on. One that nothing binds has the type `One`.
pub(crate) fn variable(alloc: Global, types: &Row<Ty>, place: u32) -> Result<Boxed<Ty>, TypeFault>
    ensures { Infers (Ok (get_or (reverse types.now) place One)) result }
{
    let count = types.len();
    let place = place as usize;
    if place < count {
        let found = types.get(count - 1 - place).copy(alloc)?;
        return Ok(Boxed::new(alloc, found)?);
    }
    Ok(Boxed::new(alloc, Ty::One)?)
}
