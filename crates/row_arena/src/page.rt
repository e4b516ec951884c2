// A page of cells, which is never written past the room that it was made with, so that no cell moves.
ghost use Rattle.std.specs.Prelude.{◌≡◌, ◌+◌, ◌-◌, ◌*◌, ◌^◌, ◌<◌, ◌≤◌, ◌++◌, ℕ, List, [], length, take, drop, IfOk};
ghost use Rattle.std.specs.Mem.Slots.{slots_ptr, slots_len, slots_items, slots_filled};
ghost use Rattle.std.specs.Mem.Slots.Ownership.{Filled};
ghost use Rattle.row_arena.specs.Page.{Cells};

use crate::cells::{Lease, free, lend, make};
use core::slots::Slots;
use std::alloc::{AllocError, Global};
use std::marker::Model;

// The places of a page, of which the first ones are written.
struct Places {
    ptr: *mut u32,
    slots: Slots<u32>,
    lease: Lease<u32, Global>,
    alloc: Global,
    written: usize,
    ghost here: { (ptr ≡ slots_ptr slots) × (lease.ptr ≡ slots_ptr slots) × (lease.len ≡ slots_len slots) × (lease.alloc ≡ alloc) },
    ghost within: { written ≤ slots_len slots },
    ghost filled: { Filled (slots_filled slots) 0 written },
}

impl Drop for Places {
    fn drop(self) {
        let Places {
            ptr: _,
            slots,
            lease,
            alloc,
            written: _,
        } = self;
        unsafe { free(&alloc, slots, lease) }
    }
}

/// The numbers written so far, and how many there can be.
#[derive(Drop)]
pub(crate) struct Page {
    places: Option<Places>,
}

impl Model for Page {
    ghost use Rattle.row_arena.specs.Held.{cells_of};
    ghost use Rattle.row_arena.specs.Page.{Cells};

    ghost Value = { Cells };

    ghost view = { λ p. cells_of p.places };
}

impl Page {
    /// No room. Takes no memory.
    pub(crate) fn empty() -> Self
        ensures empty { (result.items ≡ []) × (result.room ≡ 0) }
    {
        Page { places: None }
    }

    /// Nothing written, and so much room.
    pub(crate) fn new(alloc: Global, room: usize) -> Result<Self, AllocError>
        requires small { room < 2 ^ 41 }
        ensures empty { IfOk result (λ page. (page.items ≡ []) × (page.room ≡ room)) }
    {
        let (ptr, slots, lease) = unsafe { make(&alloc, room, &0) }?;
        Ok(Page {
            places: Some(Places {
                ptr,
                slots,
                lease,
                alloc,
                written: 0,
            }),
        })
    }

    /// Puts a row behind what is written.
    pub(crate) fn write(&mut self, row: &[u32])
        requires room { length self.old.items + length row.now ≤ self.old.room }
        ensures items { self.new.items ≡ self.old.items ++ row.now }
        ensures room { self.new.room ≡ self.old.room }
    {
        match &mut self.places {
            Some(places) => {
                places.slots.copy_in(places.written, row);
                places.written += row.len();
            }
            None => {}
        }
    }

    /// So many numbers from a place on.
    pub(crate) fn lend(&self, at: usize, len: usize) -> &[u32]
        requires within { at + len ≤ length self.now.items }
        ensures row { result.now ≡ take len (drop at self.now.items) }
    {
        if len == 0 {
            return &[];
        }
        match &self.places {
            Some(places) => unsafe { lend(&places.slots, places.ptr, at, len) },
            None => &[],
        }
    }

    /// How many numbers are written.
    pub(crate) fn len(&self) -> usize
        ensures written { result ≡ length self.now.items }
        ensures within { result ≤ self.now.room }
    {
        match &self.places {
            Some(places) => places.written,
            None => 0,
        }
    }

    /// How many more numbers can be written.
    pub(crate) fn spare(&self) -> usize
        ensures spare { result ≡ self.now.room - length self.now.items }
        ensures within { length self.now.items + result ≡ self.now.room }
    {
        match &self.places {
            Some(places) => places.slots.len() - places.written,
            None => 0,
        }
    }
}
