// The product of the types of a context.
ghost use Rattle.std.specs.Prelude.{◌≡◌, reverse, IfOk};
ghost use Rattle.topos_model.specs.statements.Needs.{product};

use std::alloc::Global;
use topos_model::{Boxed, Copied, NoMemory, Ty};

/// The product of the types of a context, which are listed from the outermost variable on: nested to the left, of one variable its type, and of none `One`.
pub fn context_product(alloc: Global, types: &[Ty]) -> Result<Ty, NoMemory>
    ensures { IfOk result (λ made. made ≡ product (reverse types.now)) }
{
    if types.is_empty() {
        return Ok(Ty::One);
    }
    let mut product = types[0].copy(alloc)?;
    for i in 1..types.len() {
        let outer = Boxed::new(alloc, product)?;
        let inner = Boxed::new(alloc, types[i].copy(alloc)?)?;
        product = Ty::Two(outer, inner);
    }
    Ok(product)
}
