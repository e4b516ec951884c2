// Tokens of a text.
use crate::{Symbol, Word};

/// A name or a place: its bytes as they were written, and the number of its token, from 1.
#[derive(Clone, Copy)]
pub struct Written<'a> {
    pub text: &'a [u8],
    pub token: u32,
}

/// A token.
#[derive(Clone, Copy)]
pub enum Token<'a> {
    Name(Written<'a>),
    /// `#` and digits. `number` is what it stands for.
    Place { number: u32, written: Written<'a> },
    Word(Word),
    Symbol(Symbol),
}
