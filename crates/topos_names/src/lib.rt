//! The document of a syntax tree: names become numbers, in the order of the tokens, within the limits.
#![tactic(auto)]

mod categories;
mod context;
mod cover;
mod derivation;
mod in_turn;
mod limit;
mod made;
mod mappings;
mod names;
mod numbers;
mod rows;
mod scope;
mod sections;
mod sent;
mod space;
mod stages;
mod statement;
mod statements;
mod stop;
mod table;
mod terms;
mod topologies;
mod types;
mod variables;
mod whole;

pub use stop::NameStop;
pub use whole::document;
