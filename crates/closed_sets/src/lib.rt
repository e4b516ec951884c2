//! All closed sets of a closure operator, in the order "without the first place, then with it".
#![tactic(auto)]

mod closing;
mod laws;
mod list;

pub use closing::Closing;
pub use laws::closed_set_laws;
pub use list::{ClosedListing, list_closed};

#[cfg(test)]
mod tests;
