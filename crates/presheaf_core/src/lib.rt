//! Presheaves of finite sets on a finite category: restrictions that are left out are filled, and the first fault of what is listed is found.
#![tactic(auto)]

mod entries;
mod fault;
mod filling;
mod functor;
mod functoriality;
mod laws;
mod rows;

pub use fault::FunctorFault;
pub use functor::Functor;
pub use laws::presheaf_laws;
pub use rows::after_row;
