// The rows of the elements at one object.
ghost use Rattle.std.specs.Prelude.{◌≡◌, ◌+◌, ◌*◌, ◌≤◌, length};
ghost use Rattle.sealed_functors.specs.Rows.{part};

use topos_model::Row;

/// The elements at one object: how many there are, how long the row of each is, and how many arrows go into the object; the rows, and the restrictions along these arrows, behind one another.
#[derive(Drop)]
pub struct ElementRows {
    pub count: u32,
    pub width: u32,
    pub arrows: u32,
    pub rows: Row<u32>,
    pub restrictions: Row<u32>,
}

// The part number k of a list of parts of one length.
pub(crate) fn part(xs: &[u32], width: u32, k: u32) -> &[u32]
    requires { k * width + width ≤ length xs.now }
    ensures { result.now ≡ part width xs.now k }
{
    let width = width as usize;
    let start = k as usize * width;
    &xs[start..start + width]
}
