//! The arrows into each object of a site and those of its least covers, as tables are read along them.
#![tactic(auto)]

mod stages;

pub use stages::Stages;
