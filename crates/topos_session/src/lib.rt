//! The run of a document: its site is checked, and its statements are answered one by one.
#![tactic(auto)]

mod answer;
mod constructions;
mod declarations;
mod elements;
mod formulas;
mod homs;
mod listing;
mod maps;
mod range;
mod run;
mod session;
mod shapes;
mod stop;
mod term_maps;
mod topology;

pub use run::{Run, run_document};
pub use session::Session;
pub use stop::{SiteStop, Stop};
