// Tables whose rows stand behind one another.
ghost use Rattle.std.specs.Prelude.{◌≡◌, ◌+◌, ◌^◌, ◌<◌, ◌≤◌, ◌++◌, ◌∷◌, ℕ, [], length, get_or, IfOk, OnOk, OnErr};
ghost use Rattle.truth_tables.specs.Tables.{row};
ghost use Rattle.truth_tables.specs.Spans.{cut};

use natural_search::push_row;
use std::alloc::Global;
use std::marker::Model;
use topos_model::{NoMemory, Row};

/// Where a row begins among the cells, and how long it is.
#[derive(Clone, Copy)]
struct Span {
    start: u32,
    len: u32,
}

/// For each object a row with one entry for each tuple, in one stretch of memory.
#[derive(Drop)]
pub struct TupleTable<T> {
    cells: Vec<T>,
    spans: Vec<Span>,
}

impl<T> Model for TupleTable<T> {
    ghost use Rattle.std.specs.Prelude.{List};
    ghost use Rattle.std.specs.Coded.{coded_list};

    ghost Value = { List (List T) };

    ghost coded = { coded_list (coded_list T.code) };

    ghost use Rattle.truth_tables.specs.Spans.{rows_of, AreWithin};

    ghost view = { λ t. rows_of t.cells.items t.spans.items };

    ghost invariant = { λ t. AreWithin t.cells.items t.spans.items };
}

// The cells of a span.
fn cut<T>(cells: &[T], span: Span) -> &[T]
    requires { span.start + span.len ≤ length cells.now }
    ensures { result.now ≡ cut cells.now span }
{
    let start = span.start as usize;
    &cells[start..start + span.len as usize]
}

// Where the next row begins. So many cells that none has a number are want of memory.
fn start_of(cells: usize) -> Result<u32, NoMemory>
    ensures { IfOk result (λ start. start ≡ cells) }
{
    if cells > u32::MAX as usize {
        return Err(NoMemory);
    }
    Ok(cells as u32)
}

// Puts an item last. Where memory is short it is given up.
fn put<T: Drop>(items: &mut Vec<T>, item: T) -> Result<(), NoMemory>
    ensures ok { OnOk result (items.new.items ≡ items.old.items ++ item ∷ []) }
    ensures err { OnErr result (items.new.items ≡ items.old.items) }
{
    match items.push(item) {
        Ok(_) => Ok(()),
        Err(_) => Err(NoMemory),
    }
}

// Puts the first so many entries at an object last.
fn put_entries<T: Drop, F: Fn(u32, u32) -> T>(
    cells: &mut Vec<T>,
    c: u32,
    size: u32,
    entry: &F,
) -> Result<(), NoMemory>
    requires { (i : ℕ) → i < size → F.pre entry.now c i }
    ensures entries { OnOk result ((f : ℕ → T) → ((i : ℕ) (x : T) → i < size → F.post entry.now c i x → x ≡ f i) → cells.new.items ≡ cells.old.items ++ row size f) }
    ensures size { OnOk result (length cells.new.items ≡ length cells.old.items + size) }
    ensures grown { length cells.old.items ≤ length cells.new.items }
{
    for i in 0..size {
        put(cells, entry(c, i))?;
    }
    Ok(())
}

impl<T> TupleTable<T> {
    /// The row of an object.
    pub fn row(&self, c: u32) -> &[T]
        requires { c < length self.now }
        ensures { result.now ≡ get_or self.now c [] }
    {
        cut(self.cells.as_slice(), self.spans[c as usize])
    }
}

impl<T: Drop> TupleTable<T> {
    // No row, and room for so many rows and entries.
    pub(crate) fn with_capacity(
        alloc: Global,
        rows: usize,
        entries: usize,
    ) -> Result<TupleTable<T>, NoMemory>
        ensures { IfOk result (λ table. table ≡ []) }
    {
        let cells = Vec::with_capacity(alloc, entries)?;
        let spans = Vec::with_capacity(alloc, rows)?;
        Ok(TupleTable { cells, spans })
    }

    // Puts the row of the first so many entries at an object last.
    pub(crate) fn push_entries<F: Fn(u32, u32) -> T>(
        &mut self,
        c: u32,
        size: u32,
        entry: &F,
    ) -> Result<(), NoMemory>
        requires { (i : ℕ) → i < size → F.pre entry.now c i }
        ensures { OnOk result ((f : ℕ → T) → ((i : ℕ) (x : T) → i < size → F.post entry.now c i x → x ≡ f i) → self.new ≡ self.old ++ row size f ∷ []) }
    {
        let start = start_of(self.cells.len())?;
        put_entries(&mut self.cells, c, size, entry)?;
        put(&mut self.spans, Span { start, len: size })?;
        Ok(())
    }
}

impl TupleTable<u32> {
    // Puts a row last.
    pub(crate) fn push_numbers(&mut self, numbers: &[u32]) -> Result<(), NoMemory>
        requires few { length numbers.now < 2 ^ 32 }
        ensures { OnOk result (self.new ≡ self.old ++ numbers.now ∷ []) }
    {
        let start = start_of(self.cells.len())?;
        let len = numbers.len() as u32;
        self.cells.extend_from_slice(numbers)?;
        put(&mut self.spans, Span { start, len })?;
        Ok(())
    }

    /// The same rows, each in memory of its own.
    pub fn to_rows(&self, alloc: Global) -> Result<Row<Row<u32>>, NoMemory>
        ensures { IfOk result (λ rows. rows ≡ self.now) }
    {
        let mut rows = Row::new(alloc);
        for span in &self.spans {
            let mut row = Row::new(alloc);
            push_row(&mut row, cut(self.cells.as_slice(), *span))?;
            rows.push(row)?;
        }
        Ok(rows)
    }
}
