//! What the types of the language are: presheaves, and sheaves where the functors that they name are; and in which order their elements stand.
#![tactic(auto)]

mod laws;

pub use laws::type_laws;
