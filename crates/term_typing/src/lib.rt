//! The type of a term in a context with the types that the term counts, or the first fault of its types.
#![tactic(auto)]

mod count;
mod fault;
mod laws;
mod occurrence;
mod product;
mod scope;
mod sort;
mod typing;

pub use count::Counted;
pub use fault::TypeFault;
pub use laws::{counting_laws, typing_laws};
pub use occurrence::names_functor;
pub use product::context_product;
pub use typing::{counted, infer};
