//! Types and terms from tokens, by the grammar: the tree that the tokens are, or the first token with which no tree goes on. The laws of reading are those of all phrases and of documents.
#![tactic(auto)]

pub mod binding;
pub mod heads;
mod laws;
mod stop;
mod terms;
mod tree;
mod types;

pub use laws::reading_laws;
pub use stop::Stop;
pub use terms::any_term;
pub use types::any_type;
