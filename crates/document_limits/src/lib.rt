//! The limits of a document: names are looked up within the limits exactly where they are without them and the document fits.
#![tactic(auto)]

mod laws;

pub use laws::limit_laws;
