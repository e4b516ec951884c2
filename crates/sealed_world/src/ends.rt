// The ends of the arrows of a category.
ghost use Rattle.std.specs.Prelude.{◌≡◌, IfOk};

use fin_category::Cat;
use std::alloc::Global;
use topos_model::{NoMemory, Row};

/// The domain and the codomain of each arrow, in arrow order.
pub(crate) fn ends_of(alloc: Global, cat: &Cat) -> Result<Row<(u32, u32)>, NoMemory>
    ensures ends { IfOk result (λ ends. ends ≡ cat.now.ends) }
{
    let mut ends = Row::new(alloc);
    for f in 0..cat.arrows() {
        ends.push((cat.dom(f), cat.cod(f)))?;
    }
    Ok(ends)
}
