// Elements of types.
use crate::{Boxed, Copied, NoMemory, Row};
use std::alloc::Global;

/// An element of a type at an object: of a functor, by its number; of `One`; a pair; of `Omega`, a sieve as its arrows in order;
/// of a power type, a set of pairs (arrow, element) in order; of a function type, the value at each such pair.
#[cycle(val)]
#[derive(Drop)]
pub enum Val {
    El(u32),
    Star,
    Two(Boxed<Val>, Boxed<Val>),
    Sv(Row<u32>),
    Sub(Row<Entry>),
    Fn(Row<Assign>),
}

/// A pair of an arrow into the object and an element at the arrow's domain.
#[cycle(val)]
#[derive(Drop)]
pub struct Entry {
    pub arrow: u32,
    pub val: Val,
}

/// Such a pair and the value there.
#[cycle(val)]
#[derive(Drop)]
pub struct Assign {
    pub arrow: u32,
    pub val: Val,
    pub to: Val,
}

impl Copied for Val {
    #[cycle(val)]
    fn copy(&self, alloc: Global) -> Result<Val, NoMemory> {
        match self {
            Val::El(number) => Ok(Val::El(*number)),
            Val::Star => Ok(Val::Star),
            Val::Two(left, right) => {
                let left = left.get().copy(alloc)?;
                let right = right.get().copy(alloc)?;
                Ok(Val::Two(Boxed::new(alloc, left)?, Boxed::new(alloc, right)?))
            }
            Val::Sv(arrows) => {
                let arrows = arrows.copy(alloc)?;
                Ok(Val::Sv(arrows))
            }
            Val::Sub(entries) => {
                let mut row = Row::new(alloc);
                for entry in entries.as_slice() {
                    let entry = entry.copy(alloc)?;
                    row.push(entry)?;
                }
                Ok(Val::Sub(row))
            }
            Val::Fn(assigns) => {
                let mut row = Row::new(alloc);
                for assign in assigns.as_slice() {
                    let assign = assign.copy(alloc)?;
                    row.push(assign)?;
                }
                Ok(Val::Fn(row))
            }
        }
    }
}

impl Copied for Entry {
    #[cycle(val)]
    fn copy(&self, alloc: Global) -> Result<Entry, NoMemory> {
        let val = self.val.copy(alloc)?;
        Ok(Entry {
            arrow: self.arrow,
            val,
        })
    }
}

impl Copied for Assign {
    #[cycle(val)]
    fn copy(&self, alloc: Global) -> Result<Assign, NoMemory> {
        let val = self.val.copy(alloc)?;
        let to = self.to.copy(alloc)?;
        Ok(Assign {
            arrow: self.arrow,
            val,
            to,
        })
    }
}
