//! The statements of a document, and documents, from tokens.
#![tactic(auto)]

mod constructions;
mod context;
mod declarations;
mod documents;
mod entries;
mod formulas;
mod heads;
mod item;
mod names;
mod site;
mod statement;
mod step;
mod version;

pub use documents::{NoDocument, document};
pub use item::Item;
pub use version::Version;
