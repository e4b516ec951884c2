//! Colimits of presheaves: the initial presheaf, coproducts, coequalizers and pushouts.
#![tactic(auto)]

mod coequalize;
mod initial;
mod join;
mod labels;
mod laws;
mod numbering;
mod sum;

pub use coequalize::coequalizer;
pub use initial::empty;
pub use join::pushout;
pub use laws::colimit_laws;
pub use sum::coproduct;
