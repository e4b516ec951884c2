//! The laws of texts: each spells one document within the limits, or has one first fault.
#![tactic(auto)]

mod laws;

pub use laws::text_laws;
