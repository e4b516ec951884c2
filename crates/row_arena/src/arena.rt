ghost use Rattle.std.specs.Prelude.{◌≡◌, ◌+◌, ◌-◌, ◌<◌, ◌≤◌, ◌^◌, ◌∷◌, ◌++◌, ℕ, [], All, length, take, get_or, vec_len, vec_capacity, IfOk, OnOk};
ghost use Rattle.std.specs.List.{sum_by};
ghost use Rattle.row_arena.specs.Arena.{place_length};

use crate::page::Page;
use std::alloc::{AllocError, Global};
use std::marker::Model;
use std::mem;

/// The place of a row in the list of rows, from 0.
pub type RowId = u32;

/// The page of a row, where in the page the row begins, and how long it is.
#[derive(Clone, Copy)]
struct Place {
    page: usize,
    at: usize,
    len: usize,
}

/// A list of rows of numbers, and room for more.
#[derive(Drop)]
pub struct RowArena {
    alloc: Global,
    full: Vec<Page>,
    last: Page,
    places: Vec<Place>,
    room: usize,
    cells: usize,
}

impl Model for RowArena {
    ghost use Rattle.std.specs.Prelude.{◌≡◌, ◌+◌, ◌-◌, ◌≤◌, ◌<◌, ◌^◌, All, length, vec_capacity, vec_len};
    ghost use Rattle.std.specs.List.{sum_by};
    ghost use Rattle.row_arena.specs.Arena.{Rows, Fits, rows_at, pages_of, place_length};

    ghost Value = { Rows };

    ghost view = { λ a. record {
      rows = rows_at (pages_of a.full.items a.last) a.places.items;
      spare_rows = a.room - vec_len a.places;
      spare_cells = a.last.room - length a.last.items;
    } };

    ghost invariant = { λ a. record {
      fit : All (λ place. Fits (pages_of a.full.items a.last) place) a.places.items;
      within : vec_len a.places ≤ a.room;
      taken : a.room ≤ vec_capacity a.places;
      few_rows : a.room < 2 ^ 32;
      counted : a.cells ≡ sum_by place_length a.places.items;
      few_cells : a.cells + (a.last.room - length a.last.items) < 2 ^ 40 + 4096;
    } };
}

impl RowArena {
    ghost use Rattle.row_arena.specs.Arena.{Rows};

    /// No row, and no room for any. Takes no memory.
    pub fn new(alloc: Global) -> Self
        ensures value { result ≡ record { rows = []; spare_rows = 0; spare_cells = 0 } }
    {
        RowArena {
            alloc,
            full: Vec::new(alloc),
            last: Page::empty(),
            places: Vec::new(alloc),
            room: 0,
            cells: 0,
        }
    }

    /// Makes room for so many rows more and so many cells; a growth makes one page.
    pub fn reserve(&mut self, rows: usize, cells: usize) -> Result<(), AllocError>
        requires few_rows { length self.old.rows + rows < 2 ^ 32 }
        requires few_cells { sum_by length self.old.rows + cells < 2 ^ 40 }
        ensures rows { self.new.rows ≡ self.old.rows }
        ensures spare_rows { OnOk result (rows ≤ self.new.spare_rows) }
        ensures spare_cells { OnOk result (cells ≤ self.new.spare_cells) }
    {
        self.places.reserve(rows)?;
        self.room = self.room.max(self.places.len() + rows);
        if self.last.spare() < cells {
            let page = Page::new(self.alloc, cells.max(PAGE))?;
            self.full.reserve(1)?;
            let old = mem::replace(&mut self.last, page);
            self.full.push(old).unwrap();
        }
        Ok(())
    }

    /// Puts a row last and gives its place. Takes no memory, and cannot fail.
    pub fn append(&mut self, row: &[u32]) -> RowId
        requires spare_row { 0 < self.old.spare_rows }
        requires spare_cells { length row.now ≤ self.old.spare_cells }
        ensures place { result ≡ length self.old.rows }
        ensures rows { self.new.rows ≡ self.old.rows ++ row.now ∷ [] }
        ensures spare_rows { self.old.spare_rows ≡ self.new.spare_rows + 1 }
        ensures spare_cells { self.old.spare_cells ≡ self.new.spare_cells + length row.now }
    {
        let id = self.places.len() as u32;
        let place = Place {
            page: self.full.len(),
            at: self.last.len(),
            len: row.len(),
        };
        self.last.write(row);
        self.places.push(place).unwrap();
        self.cells += row.len();
        id
    }

    /// The row at a place of the list.
    pub fn row(&self, id: RowId) -> &[u32]
        requires place { id < length self.now.rows }
        ensures row { result.now ≡ get_or self.now.rows id [] }
    {
        let place = self.places[id as usize];
        if place.page < self.full.len() {
            self.full[place.page].lend(place.at, place.len)
        } else {
            self.last.lend(place.at, place.len)
        }
    }

    /// How many numbers the rows have together.
    pub fn cells(&self) -> usize
        ensures cells { result ≡ sum_by length self.now.rows }
    {
        self.cells
    }

    /// How many rows there are.
    pub fn rows(&self) -> usize
        ensures rows { result ≡ length self.now.rows }
    {
        self.places.len()
    }

    /// How many rows and how many cells can be appended without a growth.
    pub fn spare(&self) -> (usize, usize)
        ensures rows { result.0 ≡ self.now.spare_rows }
        ensures cells { result.1 ≡ self.now.spare_cells }
    {
        (self.room - self.places.len(), self.last.spare())
    }

    /// Keeps the first rows alone. Takes no memory, and cannot fail.
    pub fn cut(&mut self, rows: usize)
        requires rows { rows ≤ length self.old.rows }
        ensures rows { self.new.rows ≡ take rows self.old.rows }
        ensures spare_rows { self.old.spare_rows ≤ self.new.spare_rows }
        ensures spare_cells { self.new.spare_cells ≡ self.old.spare_cells }
    {
        self.cells -= total(&self.places[rows..]);
        self.places.truncate(rows);
    }
}

/// How many cells a page has at least.
const PAGE: usize = 4096;

/// How many numbers the rows at these places have together.
fn total(places: &[Place]) -> usize
    requires few { sum_by place_length places.now < 2 ^ 64 }
    ensures total { result ≡ sum_by place_length places.now }
{
    let mut cells = 0;
    for place in places {
        cells += place.len;
    }
    cells
}
