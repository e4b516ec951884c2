//! The reader: from the bytes of a text to the document that they spell, or to the first fault of the text.
#![tactic(auto)]

mod reading;

pub use reading::read;
pub use topos_tokens::ReadFault;
