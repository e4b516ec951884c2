//! The mathematics of finite lists: members, distinct and rising lists, the sublists of a list in order, and the first answer of a test.
#![tactic(auto)]

mod laws;

pub use laws::list_laws;
