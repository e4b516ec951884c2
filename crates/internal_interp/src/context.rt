// Contexts.
ghost use Rattle.std.specs.Prelude.{◌≡◌, ◌<◌, [], length, get_or};

use functor_store::FunctorId;
use topos_model::{Row, Ty};
use truth_tables::row_at;

/// A context whose product is sealed. The innermost variable stands first.
#[derive(Drop)]
pub struct Context {
    /// The types of the variables.
    pub types: Row<Ty>,
    /// The product of these, nested to the left.
    pub product: Ty,
    /// The place where the product is sealed.
    pub place: FunctorId,
    /// How many tuples there are at each object; then how many without the innermost variable, without the two innermost ones, and so on.
    pub sizes: Row<Row<u32>>,
    /// How many values each variable has at each object.
    pub widths: Row<Row<u32>>,
}

impl Context {
    /// How many tuples there are at each object.
    pub fn tuples(&self) -> &[u32]
        requires { 0 < length self.now.sizes }
        ensures { result.now ≡ get_or self.now.sizes 0 [] }
    {
        row_at(self.sizes.as_slice(), 0)
    }
}
