//! The tokens of a text: its bytes as UTF-8, then the longest token at each place, and then the limits of names and of runs.
#![tactic(auto)]

mod blank;
mod character;
mod fault;
mod front;
mod laws;
mod lexing;
mod limit;
mod symbol;
mod word;

pub use fault::ReadFault;
pub use laws::token_laws;
pub use lexing::tokens;
pub use limit::limit_of;
