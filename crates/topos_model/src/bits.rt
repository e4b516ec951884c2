// Lists of truth values.
ghost use Rattle.std.specs.Prelude.{◌≡◌, ◌<◌, false, length, replicate, get_or, slice_set, IfOk};

use crate::NoMemory;
use std::alloc::Global;
use std::marker::Model;

/// A list of truth values.
#[derive(Drop)]
pub struct Bits {
    items: Vec<bool>,
}

impl Model for Bits {
    ghost use Rattle.std.specs.Prelude.{Bool, List};

    ghost Value = { List Bool };

    ghost view = { λ bits. bits.items.items };
}

impl Bits {
    /// So many values, all false.
    pub fn new(alloc: Global, len: usize) -> Result<Bits, NoMemory>
        ensures { IfOk result (λ bits. bits ≡ replicate len false) }
    {
        let mut items = Vec::new(alloc);
        items.resize(len, false)?;
        Ok(Bits { items })
    }

    /// How many values there are.
    pub fn len(&self) -> usize
        ensures { result ≡ length self.now }
    {
        self.items.len()
    }

    /// The value at place i, counted from 0.
    pub fn get(&self, i: usize) -> bool
        requires { i < length self.now }
        ensures { result ≡ get_or self.now i false }
    {
        self.items[i]
    }

    /// Puts a value at place i; the others stay.
    pub fn set(&mut self, i: usize, v: bool)
        requires { i < length self.old }
        ensures { self.new ≡ slice_set self.old i v }
    {
        self.items[i] = v;
    }
}
