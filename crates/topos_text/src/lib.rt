//! What a text is: its tokens and its syntax trees as data, and the definitions that say which document it spells and why it spells none.
#![tactic(auto)]

mod site;
mod statement;
mod symbol;
mod token;
mod tree;
mod word;

pub use site::{ArrowTree, CoverTree, CoversTree, SiteTree, TopologyTree};
pub use statement::{
    Construction, DocumentTree, ElementTree, EntryTree, Extension, Fork, MapAtTree, MappingTree,
    PlaceTree, Question, SectionTree, SentTree, StatementTree, StepTree,
};
pub use symbol::Symbol;
pub use token::{Token, Written};
pub use tree::{Binder, Binding, TermTree, TypeTree};
pub use word::Word;
