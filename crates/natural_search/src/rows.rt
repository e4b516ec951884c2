// Rows that are found.
ghost use Rattle.std.specs.Prelude.{◌≡◌, ◌≤◌, ◌+◌, ◌*◌, length, take, drop};

use topos_model::Row;

/// Rows of one length: how many, and their numbers behind one another.
#[derive(Drop)]
pub struct FoundRows {
    pub count: u64,
    pub numbers: Row<u32>,
}

impl FoundRows {
    /// The row number i, where the rows have so many numbers.
    pub fn row(&self, i: u64, width: usize) -> &[u32]
        requires { i * width + width ≤ length self.now.numbers }
        ensures { result.now ≡ take width (drop (i * width) self.now.numbers) }
    {
        let numbers = self.numbers.as_slice();
        let _len = numbers.len();
        let start = i as usize * width;
        &numbers[start..start + width]
    }
}

/// The first rows, and whether there are more.
#[derive(Drop)]
pub struct FirstRows {
    pub rows: FoundRows,
    pub more: bool,
}
