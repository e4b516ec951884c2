// The words of the command line.

/// What the program does: it runs a document, checks one, or makes one and runs it.
#[derive(Clone, Copy, Debug, PartialEq, Eq)]
pub enum Mode {
    Run,
    Check,
    Make,
}

/// What accepted words say: the mode, the budget of cells, and the size of the document that is made, which is 0 where none is made.
#[derive(Clone, Copy, Debug, PartialEq, Eq)]
pub struct Words {
    pub mode: Mode,
    pub budget: u64,
    pub size: u32,
}
