// Contexts with one variable more.
ghost use Rattle.std.specs.Prelude.{◌≡◌, ◌<◌, ◌∷◌, [], List, length, get_or, IfOk};
ghost use Rattle.topos_model.specs.declared.ty.Ty.{Ty};
ghost use Rattle.topos_model.specs.declared.context.MapTy.{MapTy};
ghost use Rattle.topos_model.specs.statements.Needs.{product};
ghost use Rattle.topos_model.specs.formulas.Forcing.{World};
ghost use Rattle.internal_interp.specs.Contexts.{widths_of};
ghost use Rattle.internal_interp.specs.Known.{Knows, IsScope, IsBinding};

use crate::widths::{place_of, widths};
use crate::{Context, Interpreter};
use std::alloc::Global;
use topos_model::{Boxed, Copied, NoMemory, Row, Ty};

// An item before others.
fn with_first<T: Copied + Drop>(alloc: Global, first: T, rest: &Row<T>) -> Result<Row<T>, NoMemory>
    ensures { IfOk result (λ row. row ≡ first ∷ rest.now) }
{
    let mut row = Row::new(alloc);
    row.push(first)?;
    row.append(rest.copy(alloc)?)?;
    Ok(row)
}

// The product of a context with one variable more.
fn product_with(alloc: Global, context: &Context, ty: &Ty) -> Result<Ty, NoMemory>
    requires { context.now.product ≡ product context.now.types }
    ensures { IfOk result (λ whole. whole ≡ product (ty.now ∷ context.now.types)) }
{
    let ty = ty.copy(alloc)?;
    if context.types.len() == 0 {
        return Ok(ty);
    }
    let outer = context.product.copy(alloc)?;
    Ok(Ty::Two(Boxed::new(alloc, outer)?, Boxed::new(alloc, ty)?))
}

/// The context with one variable more, the innermost, whose product is sealed.
pub(crate) fn bind(
    alloc: Global,
    interpreter: &Interpreter<'_>,
    context: &Context,
    ty: &Ty,
) -> Result<Context, NoMemory>
    requires known { (w : World) × (maps : List MapTy) × (Γ : List Ty) × IsBinding w maps interpreter.now Γ context.now ty.now }
    ensures { IfOk result (λ inner. (w : World) (maps : List MapTy) (Γ : List Ty) → IsBinding w maps interpreter.now Γ context.now ty.now → IsScope w maps interpreter.now (ty.now ∷ Γ) inner) }
{
    let product = product_with(alloc, context, ty)?;
    let place = place_of(interpreter.store, &product);
    let tuples = widths(alloc, interpreter, &product)?;
    let values = widths(alloc, interpreter, ty)?;
    Ok(Context {
        types: with_first(alloc, ty.copy(alloc)?, &context.types)?,
        product,
        place,
        sizes: with_first(alloc, tuples, &context.sizes)?,
        widths: with_first(alloc, values, &context.widths)?,
    })
}
