//! Rows of numbers in pages. No row moves, `reserve` alone takes memory, and an `append` within what it made room for cannot fail.
#![tactic(auto)]

mod arena;
mod cells;
mod page;

pub use arena::{RowArena, RowId};
pub use std::alloc::AllocError as NoMemory;
