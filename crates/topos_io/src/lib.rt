//! The outside of the program: sources that bytes are read from and sinks that they are written to,
//! each with a count of its faults.
#![tactic(auto)]

pub mod calm;
pub mod error;
pub mod memory;
pub mod sink;
pub mod source;
pub mod streams;
