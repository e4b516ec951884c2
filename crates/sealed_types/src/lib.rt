//! The elements of types in a store.
#![tactic(auto)]

mod laws;
mod sealed;

pub use laws::sealed_type_laws;
pub use sealed::Sealed;
