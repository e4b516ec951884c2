//! Grothendieck topologies on a finite category: whether listed sieves give one, which sieves cover, and closures.
#![tactic(auto)]

mod candidates;
mod dense;
mod families;
mod fault;
mod laws;
mod listed;
mod site;
mod topology;

pub use families::are_families;
pub use fault::TopFault;
pub use laws::{closure_laws, topology_laws};
pub use site::Site;
pub use topology::Topology;

#[cfg(test)]
mod tests;
